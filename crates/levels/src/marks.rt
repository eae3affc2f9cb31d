// Marks: what HL04 may say of a level.
ghost use Rattle.std.specs.Prelude.{◌≡◌};
ghost use Rattle.levels.specs.Profile.{level_profile};
ghost use Rattle.levels.specs.Rules.{mark_fits};
ghost use Rattle.levels.specs.internal.Codes.{number};

use crate::codes;
use crate::codes::Code;
use rows::profile::ProfileName;

// Whether a level of the code may have the mark: none, `0`, or `1` of a code that may be marked.
#[tactic(auto, using(crate::proofs::MarkTests::long_mark))]
pub(crate) fn mark_fits(profile: ProfileName, mark: &[u8], code: Code) -> bool
    ensures { result ≡ mark_fits (level_profile profile) (number code) mark.now }
{
    match mark {
        b"" | b"0" => true,
        b"1" => codes::may_be_marked(profile, code),
        _ => false,
    }
}
