// Storing the records of a segment and of a level in the lent tables.
ghost use Rattle.std.specs.Prelude.{◌≡◌, [], ◌∷◌, ◌++◌, ◌+◌, ◌-◌, ◌/◌, ◌≤◌, ◌<◌, ltb, length, take, drop};
ghost use Rattle.levels.specs.Widths.{segment_width, level_width};
ghost use Rattle.finding.specs.internal.Entries.{stored_at};
ghost use Rattle.reading.specs.internal.Entering.{levels_with, lasts_with};

use elements::layout::Layout;
use finding::lists::LISTS;
use finding::notes::Asks;
use finding::{lists, notes};
use levels::widths::{LEVEL_WIDTH, SEGMENT_WIDTH};

// A level that a segment makes: its parent's level number, its depth, its code, what its mark asks of the levels to come, and the list
// that its HL01 belongs to.
#[derive(Clone, Copy, Drop)]
pub(crate) struct NewLevel {
    pub parent: usize,
    pub depth: usize,
    pub code: usize,
    pub asks: Asks,
    pub place: usize,
}

// Whether the segment table has room for one record behind the first n. One function a table, so that a call says which it asks.
pub(crate) fn segment_room(segments: &[u64], n: usize) -> bool
    ensures { result ≡ ltb n (length segments.now / segment_width) }
{
    n < segments.len() / SEGMENT_WIDTH
}

// Whether the level table has room for one record behind the first n.
pub(crate) fn level_room(levels: &[u64], n: usize) -> bool
    ensures { result ≡ ltb n (length levels.now / level_width) }
{
    n < levels.len() / LEVEL_WIDTH
}

// Stores the four numbers of a record, one behind the other.
#[tactic(auto, using(crate::proofs::reader::Stores::four_stored))]
fn store_four(table: &mut [u64], at: usize, numbers: [u64; 4])
    requires { at + 4 ≤ length table.old }
    ensures { table.new ≡ take at table.old ++ (numbers ++ drop (at + 4) table.old) }
{
    table[at..at + 4].copy_from_slice(&numbers);
}

// Start, length and row of a segment, and the level it belongs to, behind the first n records.
pub(crate) fn put_segment(segments: &mut [u64], n: usize, layout: Layout, row: u8, level: usize)
    requires at_le_end { layout.at ≤ layout.end }
    requires n_in_bounds { n < length segments.old / segment_width }
    ensures { segments.new ≡ stored_at segment_width segments.old n (layout.at ∷ (layout.end - layout.at) ∷ row ∷ level ∷ []) }
{
    let len = layout.end - layout.at;
    let numbers = [layout.at as u64, len as u64, row as u64, level as u64];
    store_four(segments, n * SEGMENT_WIDTH, numbers);
}

// Enters a level behind the first n: its record, with a note, and it as the last of its list; its parent's note tells that a child was met.
pub(crate) fn put_level(
    levels: &mut [u64],
    lasts: &mut [u32; LISTS],
    n: usize,
    segment: usize,
    level: NewLevel,
)
    requires { n < length levels.old / level_width }
    ensures { (levels.new ≡ levels_with levels.old lasts.old n segment level) × (lasts.new ≡ lasts_with lasts.old n level) }
{
    let before = lists::last_in(lasts, level.place);
    notes::meet_child(levels, level.parent);
    let note = notes::note(level.code, level.asks as usize, before);
    let numbers = [
        segment as u64,
        level.parent as u64,
        level.depth as u64,
        note as u64,
    ];
    store_four(levels, n * LEVEL_WIDTH, numbers);
    lists::put_last(lasts, level.place, n + 1);
}
