// Notes: what the fourth number of a level's record holds while a report is read. It is the code, and above it what the level's mark
// still asks and the level before it in its list. Before the answer is given, only the code is left.
ghost use Rattle.std.specs.Prelude.{◌≡◌};
ghost use Rattle.finding.specs.internal.Notes.{note_of, asks_of, code_in, asks_in, link_in, answered, child_met, cleared};

use crate::tables;
use levels::widths::LEVEL_WIDTH;

// What a mark asks of the levels to come: nothing, that none hangs under its own, or that one does.
#[derive(Clone, Copy, Debug, Drop, PartialEq, Eq)]
pub enum Asks {
    Nothing,
    Shut,
    Owes,
}

// What a mark asks of the levels to come.
#[tactic(auto, using(crate::proofs::NoteLaws::long_mark_asks))]
pub fn asks_of(mark: &[u8]) -> Asks
    ensures { result ≡ asks_of mark.now }
{
    match mark {
        b"0" => Asks::Shut,
        b"1" => Asks::Owes,
        _ => Asks::Nothing,
    }
}

// The note of a level with that code, mark and level before it in its list. What the mark asks is a number here: the promise holds of any.
pub fn note(code: usize, asks: usize, before: usize) -> usize
    ensures { result ≡ note_of code asks before }
{
    code % 8 + asks % 4 * 8 + before % 4294967296 * 32
}

// The code that a note has.
pub(crate) fn code_in(note: usize) -> usize
    ensures { result ≡ code_in note }
{
    note % 8
}

// What the mark of a level with that note still asks.
pub(crate) fn asks_in(note: usize) -> Asks
    ensures { result ≡ asks_in note }
{
    match note / 8 % 4 {
        1 => Asks::Shut,
        2 => Asks::Owes,
        _ => Asks::Nothing,
    }
}

// The level before it in its list that a note has.
pub(crate) fn link_in(note: usize) -> usize
    ensures { result ≡ link_in note }
{
    note / 32
}

// A note once a child was met: none is owed any more.
fn answered(note: usize) -> usize
    ensures { result ≡ answered note }
{
    match asks_in(note) {
        Asks::Owes => note - 16,
        _ => note,
    }
}

// Notes a child with that parent.
pub fn meet_child(levels: &mut [u64], parent: usize)
    ensures { levels.new ≡ child_met levels.old parent }
{
    if tables::has_record(levels, LEVEL_WIDTH, parent) {
        let at = (parent - 1) * LEVEL_WIDTH + 3;
        levels[at] = answered(levels[at] as usize) as u64;
    }
}

// Leaves the codes alone in the first `count` records.
#[tactic(auto, using(crate::proofs::NoteLaws::cleared_more))]
pub fn clear(levels: &mut [u64], count: usize)
    ensures { levels.new ≡ cleared count levels.old }
{
    // By places: the fourth number of each record is written, and no other.
    for k in 0..tables::level_count(levels, count) {
        levels[k * LEVEL_WIDTH + 3] %= 8;
    }
}
