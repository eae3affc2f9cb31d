// The walk: each level without a parent in file order, and under it its children, each followed by its own.
ghost use Rattle.std.specs.Prelude.{◌≡◌, ◌+◌, ◌-◌, ◌*◌, ◌≤◌, length};
ghost use Rattle.std.proofs.lemmas.List.Edits.{sets};
ghost use Rattle.levels.specs.Widths.{level_width};
ghost use Rattle.outline.specs.Walks.{FitTable, Walks};
ghost use Rattle.outline.specs.internal.Fitting.{Listable};
ghost use Rattle.outline.specs.internal.Listing.{depth_of, listed};
ghost use Rattle.outline.specs.internal.Straying.{last_stray};

use crate::answer::{Reason, Unlisted, Walked};
use crate::{fitting, records, straying};
use levels::widths::LEVEL_WIDTH;

// A table's levels: how many, and the last that strays from the order of an outline.
#[derive(Clone, Copy, Drop)]
pub struct Forest {
    pub count: usize,
    pub stray: usize,
}

// Writes the levels under `of`, which has that depth, from place `at` on, each followed by its own; the place behind them. Level 0 is above
// all, at depth 0. A level's children stand behind it, and behind the last stray they end where a level is no deeper.
fn walk_under(
    levels: &[u64],
    forest: Forest,
    of: usize,
    depth: usize,
    output: &mut [u64],
    at: usize,
) -> usize
    requires count_in_bounds { level_width * forest.count ≤ length levels.now }
    requires fit_table { FitTable levels.now forest.count }
    requires stray_value { forest.stray ≡ last_stray levels.now forest.count }
    requires of_le_count { (of ≤ forest.count) × (depth ≡ depth_of levels.now of) }
    requires of_in_bounds { at + length (listed (4 - depth) levels.now forest.count of) ≤ length output.old }
    ensures { (result ≡ at + length (listed (4 - depth) levels.now forest.count of))
        × (output.new ≡ sets output.old at (listed (4 - depth) levels.now forest.count of)) }
{
    let mut next = at;
    if depth < 4 {
        for before in of..forest.count {
            let level = before + 1;
            if (forest.stray < level) & (records::depth_in(levels, level) <= depth as u64) {
                break;
            }
            if records::parent_in(levels, level) == of as u64 {
                output[next] = level as u64;
                next = walk_under(levels, forest, level, depth + 1, output, next + 1);
            }
        }
    }
    next
}

// Whether the levels 1 to count can be listed in an output of so many places: not with 20 where the table has not so many, or one is unfit, nor
// with 21 where the places are fewer.
fn listable(levels: &[u64], count: usize, places: usize) -> Result<(), Unlisted>
    ensures { Listable levels.now count places result }
{
    if levels.len() / LEVEL_WIDTH < count {
        return Err(Reason::UnfitTable.at_level(0));
    }
    if let Some(level) = fitting::first_unfit(levels, count) {
        return Err(Reason::UnfitTable.at_level(level));
    }
    if places < count {
        return Err(Reason::ShortOutput.at_level(0));
    }
    Ok(())
}

// Lists the levels 1 to count of the table in the output, each under its parent. Where that is refused the output keeps what it held, and so
// does what lies behind the list.
pub fn walk(levels: &[u64], count: usize, output: &mut [u64]) -> Walked
    ensures { Walks levels.now count output.old result output.new }
{
    listable(levels, count, output.len())?;
    let stray = straying::last_stray(levels, count);
    walk_under(levels, Forest { count, stray }, 0, 0, output, 0);
    Ok(count)
}
