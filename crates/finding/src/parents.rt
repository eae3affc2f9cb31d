// A level as the parent of others.
ghost use Rattle.std.specs.Prelude.{◌≡◌};
ghost use Rattle.finding.specs.internal.Answers.{parent_in};

use crate::notes::Asks;
use crate::{notes, tables};
use levels::judging::Parent;

// What its children must know of level n.
#[tactic(auto, unfolding(crate::specs::internal::Answers::parent_in))]
pub fn parent_at(levels: &[u64], n: usize) -> Parent
    ensures { result ≡ parent_in levels.now n }
{
    let note = tables::level_note(levels, n);
    Parent {
        number: n,
        code: notes::code_in(note),
        shut: notes::asks_in(note) == Asks::Shut,
        below: tables::level_depth(levels, n) + 1,
    }
}
