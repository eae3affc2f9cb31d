// Reading the two tables. A record that a table lacks reads as zeros, since what is promised of a table is promised of any.
ghost use Rattle.std.specs.Prelude.{◌≡◌, ◌/◌, ◌<◌, min, length};
ghost use Rattle.text.specs.Bytes.{between};
ghost use Rattle.finding.specs.internal.Entries.{entry_of, start_of, level_entry, deepest, count_in};

use levels::widths::{LEVEL_WIDTH, SEGMENT_WIDTH};

// No level lies deeper.
pub(crate) const DEEPEST: usize = 4;

// Whether a table whose records have `width` numbers has record n.
pub(crate) fn has_record(table: &[u64], width: usize, n: usize) -> bool
    requires { 0 < width }
    ensures { result ≡ between 1 (length table.now / width) n }
{
    (1 <= n) & (n <= table.len() / width)
}

// Number k of record n of a table whose records have `width` numbers.
fn entry(table: &[u64], width: usize, n: usize, k: usize) -> usize
    requires { k < width }
    ensures { result ≡ entry_of width table.now n k }
{
    if has_record(table, width, n) {
        table[(n - 1) * width + k] as usize
    } else {
        0
    }
}

// Where segment n starts.
pub(crate) fn segment_start(segments: &[u64], n: usize) -> usize
    ensures { result ≡ start_of segments.now n }
{
    entry(segments, SEGMENT_WIDTH, n, 0)
}

// How many levels there are: the count, or as many as the table has room for.
pub(crate) fn level_count(levels: &[u64], count: usize) -> usize
    ensures { result ≡ count_in levels.now count }
{
    count.min(levels.len() / LEVEL_WIDTH)
}

// The number of level n's segment.
pub(crate) fn level_segment(levels: &[u64], n: usize) -> usize
    ensures { result ≡ level_entry levels.now n 0 }
{
    entry(levels, LEVEL_WIDTH, n, 0)
}

// The depth of level n.
pub(crate) fn level_depth(levels: &[u64], n: usize) -> usize
    ensures { result ≡ min deepest (level_entry levels.now n 2) }
{
    DEEPEST.min(entry(levels, LEVEL_WIDTH, n, 2))
}

// The note of level n.
pub(crate) fn level_note(levels: &[u64], n: usize) -> usize
    ensures { result ≡ level_entry levels.now n 3 }
{
    entry(levels, LEVEL_WIDTH, n, 3)
}
