// Between two segments: past the line end that is skipped there, what is left of the queue behind it, and whether a BIN begins.
ghost use Rattle.std.specs.Prelude.{◌≡◌, ◌≤◌, ◌<◌, length};
ghost use Rattle.gate.specs.Reads.{limit};
ghost use Rattle.reading.specs.internal.Between.{skipped_at, PastSpecial, Starts};

use crate::cutting::{Left, Onward};
use gate::how::How;
use text::{bin, lines};

// What is left of the queue behind the special byte at `at`: it has the first entry, or the queue is used up.
fn past_special(left: Left, at: usize) -> Left
    requires { at < limit }
    ensures { PastSpecial at left result }
{
    let Left { head, tail, seen } = left;
    if head < tail {
        return Left {
            head: head + 1,
            tail,
            seen,
        };
    }
    Left {
        head: 0,
        tail: 0,
        seen: at + 1,
    }
}

// How many bytes are skipped at that place: none at the start of the bytes, where no terminator stands before it.
fn skipped_at(s: &[u8], how: How, at: usize) -> usize
    ensures { result ≡ skipped_at how s.now at }
{
    if at == 0 {
        return 0;
    }
    lines::skipped(s, at, how.separators, how.lines)
}

// Past the line end at `at`, if there is one. All its bytes are special.
fn past_line_end(s: &[u8], how: How, at: usize, left: Left) -> Onward
    requires { length s.now ≤ limit }
    ensures { Starts how s.now at left result }
{
    let end = at + skipped_at(s, how, at);
    let mut behind = left;
    for i in at..end {
        behind = past_special(behind, i);
    }
    Onward {
        at: end,
        left: behind,
        bin: bin::begins(s, end, how.separators.element),
    }
}

// The start of the next segment, where `at` is the start of the bytes or the place behind a terminator. Most segments begin with a letter
// behind `B`: there neither a line end stands nor a BIN begins.
pub(crate) fn next_start(s: &[u8], how: How, at: usize, left: Left) -> Onward
    requires { length s.now ≤ limit }
    ensures { Starts how s.now at left result }
{
    if s.len() <= at {
        return Onward {
            at,
            left,
            bin: false,
        };
    }
    if b'B' < s[at] {
        return Onward {
            at,
            left,
            bin: false,
        };
    }
    past_line_end(s, how, at, left)
}
