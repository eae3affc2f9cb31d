// Finding the level that has an HL01.
ghost use Rattle.std.specs.Prelude.{◌≡◌, ◌+◌, ◌-◌, min, drop, slice_get};
ghost use Rattle.finding.specs.internal.Entries.{start_of, level_entry};
ghost use Rattle.finding.specs.internal.Notes.{link_in};
ghost use Rattle.finding.specs.internal.PieceEnds.{ends_by};
ghost use Rattle.finding.specs.internal.Answers.{sought};

use crate::known::Known;
use crate::{lists, notes, tables};

// The bytes from the HL01 of level n on: behind `HL` and a separator.
fn from_id<'a>(known: Known<'a>, n: usize) -> &'a [u8]
    ensures { result.now ≡ drop (start_of known.entry.segments.now (level_entry known.entry.levels.now n 0) + 3) known.entry.bytes.now }
{
    let start = tables::segment_start(known.segments, tables::level_segment(known.levels, n));
    let from = start.saturating_add(3).min(known.bytes.len());
    &known.bytes[from..]
}

// Whether a piece may end before the rest: the bytes end, or a separator follows.
fn may_end(rest: &[u8], separator: u8) -> bool
    ensures { result ≡ ends_by separator (slice_get rest.now 0) }
{
    rest.first().is_none_or(|next| *next == separator)
}

// The level before level n in its list, which has a lesser number; 0 where there is none.
fn before(levels: &[u64], n: usize) -> usize
    ensures { result ≡ min (link_in (level_entry levels.now n 3)) (n - 1) }
{
    notes::link_in(tables::level_note(levels, n)).min(n.saturating_sub(1))
}

// The number of the level that has the HL01, of the list that it belongs to; none where none has. The lengths are compared first, then the bytes.
#[tactic(auto, using(crate::proofs::FirstPiece::starts_short, crate::proofs::FirstPiece::starts_other_end, crate::proofs::FirstPiece::starts_agreed, crate::proofs::LevelSearch::sought_starts, crate::proofs::LevelSearch::sought_hit, crate::proofs::LevelSearch::sought_miss))]
pub fn find(known: Known, place: usize, id: &[u8]) -> Option<usize>
    ensures { result ≡ sought known.entry.bytes.now known.entry.separator known.entry.segments.now known.entry.levels.now known.entry.lasts.now place id.now }
{
    let mut left = lists::last_in(known.lasts, place);
    // A `while`: what comes next is told by the level itself, which names the one before it in its list.
    'levels: while 0 < left {
        let level = left;
        left = before(known.levels, level);
        let Some((name, rest)) = from_id(known, level).split_at_checked(id.len()) else {
            continue 'levels;
        };
        if !may_end(rest, known.separator) {
            continue 'levels;
        }
        for i in 0..id.len() {
            if name[i] != id[i] {
                continue 'levels;
            }
        }
        return Some(level);
    }
    None
}
