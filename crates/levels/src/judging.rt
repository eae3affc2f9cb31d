// Judging an HL by its code and mark, and by its parent.
ghost use Rattle.std.specs.Prelude.{◌≡◌};
ghost use Rattle.elements.specs.Checks.{first_broken};
ghost use Rattle.levels.specs.Profile.{level_profile};
ghost use Rattle.levels.specs.Rules.{root_checks, child_checks};
ghost use Rattle.levels.specs.internal.Codes.{number};
ghost use Rattle.levels.specs.internal.Answers.{judged_root, judged_child};

use crate::codes::Code;
use crate::{codes, marks};
use elements::verdict::{Fault, Reason, Verdict};
use rows::profile::ProfileName;

// What an HL that breaks no rule makes of its level: the parent's level number, 0 for none, the depth, the code's number, as its record has them.
#[derive(Clone, Copy, Drop)]
pub struct Entitled {
    pub parent: usize,
    pub depth: usize,
    pub code: usize,
}

// What its children must know of a level: its number, its code's number as its record has it, whether it is marked 0, and the depth below it.
#[derive(Clone, Copy, Drop)]
pub struct Parent {
    pub number: usize,
    pub code: usize,
    pub shut: bool,
    pub below: usize,
}

// Answers 14 and 15 of a level of the code without a parent.
fn root_verdict(profile: ProfileName, own: Code, mark: &[u8]) -> Verdict
    ensures { result ≡ first_broken (root_checks (level_profile profile) (number own) mark.now) }
{
    Reason::BadCode.unless(codes::may_stand_alone(profile, own), 3)?;
    Reason::BadMark.unless(marks::mark_fits(profile, mark, own), 4)
}

// Answers 14 and 15 of a level of the code under this parent.
fn child_verdict(profile: ProfileName, parent: Parent, own: Code, mark: &[u8]) -> Verdict
    ensures { result ≡ first_broken (child_checks (level_profile profile) parent.code parent.shut (number own) mark.now) }
{
    Reason::BadCode.unless(codes::may_hang(profile, parent.code, own), 2)?;
    Reason::BadMark.unless(!parent.shut, 2)?;
    Reason::BadMark.unless(marks::mark_fits(profile, mark, own), 4)
}

// What an HL that names no parent makes of its level, by its code and mark, or the first rule that it breaks.
#[tactic(auto, unfolding(crate::specs::internal::Answers::judged_root))]
pub fn judge_root(profile: ProfileName, code: &[u8], mark: &[u8]) -> Result<Entitled, Fault>
    ensures { result ≡ judged_root (level_profile profile) code.now mark.now }
{
    let own = codes::known(profile, code).ok_or(Reason::BadCode.at_element(3))?;
    root_verdict(profile, own, mark)?;
    Ok(Entitled {
        parent: 0,
        depth: 1,
        code: own.number(),
    })
}

// What an HL under this parent makes of its level, by its code and mark, or the first rule that it breaks.
#[tactic(auto, unfolding(crate::specs::internal::Answers::judged_child))]
pub fn judge_child(
    profile: ProfileName,
    parent: Parent,
    code: &[u8],
    mark: &[u8],
) -> Result<Entitled, Fault>
    ensures { result ≡ judged_child (level_profile profile) parent code.now mark.now }
{
    let own = codes::known(profile, code).ok_or(Reason::BadCode.at_element(3))?;
    child_verdict(profile, parent, own, mark)?;
    Ok(Entitled {
        parent: parent.number,
        depth: parent.below,
        code: own.number(),
    })
}
