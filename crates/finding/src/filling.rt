// Whether every level marked 1 has a child.
ghost use Rattle.std.specs.Prelude.{◌≡◌};
ghost use Rattle.finding.specs.internal.Entries.{count_in};
ghost use Rattle.finding.specs.internal.Answers.{none_owes};

use crate::notes::Asks;
use crate::{notes, tables};

// Whether no level owes a child.
pub fn all_filled(levels: &[u64], count: usize) -> bool
    ensures { result ≡ none_owes levels.now (count_in levels.now count) }
{
    let total = tables::level_count(levels, count);
    (1..total + 1).all(|n| notes::asks_in(tables::level_note(levels, n)) != Asks::Owes)
}
