// Line ends between segments: whether they are skipped, and how many bytes that takes.
ghost use Rattle.std.specs.Prelude.{◌≡◌, drop};
ghost use Rattle.text.specs.Cut.{at_most_one, line_end, skip_of};

use crate::separators::Separators;

// What becomes of a line end behind a terminator.
#[derive(Clone, Copy, Debug, PartialEq, Eq, Drop)]
pub enum LineEnds {
    // It is skipped: at most one CR and then at most one LF.
    Skipped,
    // It belongs to the segment that it stands before.
    Strict,
}

// 1 where this byte stands at that place and is no separator, else 0.
fn at_most_one(s: &[u8], at: usize, separators: Separators, byte: u8) -> usize
    ensures { result ≡ at_most_one separators byte (drop at s.now) }
{
    let Some(&first) = s.get(at) else {
        return 0;
    };
    usize::from((first == byte) & !separators.separates(byte))
}

// The length of the line end at that place. Few bytes are so small: any other is told by one comparison.
fn line_end(s: &[u8], at: usize, separators: Separators) -> usize
    ensures { result ≡ line_end separators (drop at s.now) }
{
    let Some(&first) = s.get(at) else {
        return 0;
    };
    if b'\r' < first {
        return 0;
    }
    let returns = at_most_one(s, at, separators, b'\r');
    returns + at_most_one(s, at + returns, separators, b'\n')
}

// How many bytes are skipped at that place, which stands behind a terminator.
pub fn skipped(s: &[u8], at: usize, separators: Separators, lines: LineEnds) -> usize
    ensures { result ≡ skip_of lines separators (drop at s.now) }
{
    match lines {
        LineEnds::Skipped => line_end(s, at, separators),
        LineEnds::Strict => 0,
    }
}
