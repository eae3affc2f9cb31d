// The codes of levels, which of them a profile knows, and what each may do.
ghost use Rattle.std.specs.Prelude.{◌≡◌};
ghost use Rattle.text.specs.Bytes.{among};
ghost use Rattle.levels.specs.Profile.{six_codes, code_among, nonconformance, level_profile, code_of, may_stand_alone, may_be_marked, may_hang};
ghost use Rattle.levels.specs.internal.Codes.{number, number_or_0, numbered};

use rows::profile::ProfileName;

// The codes RP, I, F, PC, SN and RB, with their numbers.
#[derive(Clone, Copy, Drop)]
pub(crate) enum Code {
    Report = 1,
    Item = 2,
    Component = 3,
    Characteristic = 4,
    Serial = 5,
    Response = 6,
}

impl Code {
    pub(crate) fn number(self) -> usize
        ensures { result ≡ number self }
    {
        self as usize
    }
}

// The code that the bytes are, of any profile.
fn code_in(text: &[u8]) -> Option<Code>
    ensures { number_or_0 result ≡ code_among six_codes text.now }
{
    match text {
        b"RP" => Some(Code::Report),
        b"I" => Some(Code::Item),
        b"F" => Some(Code::Component),
        b"PC" => Some(Code::Characteristic),
        b"SN" => Some(Code::Serial),
        b"RB" => Some(Code::Response),
        _ => None,
    }
}

// Whether the profile knows the code.
fn knows(profile: ProfileName, code: Code) -> bool
    ensures { result ≡ among (level_profile profile).codes (number code) }
{
    match profile {
        ProfileName::Report => !matches!(code, Code::Response),
        ProfileName::Reply => matches!(code, Code::Item | Code::Response | Code::Report),
    }
}

// The number of the code; 0 where the profile does not know it, as the definition `code_of` has it.
#[tactic(auto, unfolding(crate::specs::Profile::code_of))]
pub fn code_number(profile: ProfileName, code: &[u8]) -> usize
    ensures { result ≡ code_of (level_profile profile) code.now }
{
    code_in(code)
        .filter(|code| knows(profile, *code))
        .map_or(0, |known| known.number())
}

// The code with that number.
fn numbered(number: usize) -> Option<Code>
    ensures { result ≡ numbered number }
{
    match number {
        1 => Some(Code::Report),
        2 => Some(Code::Item),
        3 => Some(Code::Component),
        4 => Some(Code::Characteristic),
        5 => Some(Code::Serial),
        6 => Some(Code::Response),
        _ => None,
    }
}

// The code that the bytes are, if the profile knows it: the code with its number.
#[tactic(auto, using(crate::proofs::CodeLetters::number_again))]
pub(crate) fn known(profile: ProfileName, text: &[u8]) -> Option<Code>
    ensures { number_or_0 result ≡ code_of (level_profile profile) text.now }
{
    numbered(code_number(profile, text))
}

// Whether a level of the code may stand without a parent.
#[tactic(auto, unfolding(crate::specs::Profile::may_stand_alone))]
pub(crate) fn may_stand_alone(profile: ProfileName, code: Code) -> bool
    ensures { result ≡ may_stand_alone (level_profile profile) (number code) }
{
    match profile {
        ProfileName::Report => matches!(code, Code::Report | Code::Item),
        ProfileName::Reply => matches!(code, Code::Item | Code::Response | Code::Report),
    }
}

// Whether a level of the code may be marked 1.
#[tactic(auto, unfolding(crate::specs::Profile::may_be_marked))]
pub(crate) fn may_be_marked(profile: ProfileName, code: Code) -> bool
    ensures { result ≡ may_be_marked (level_profile profile) (number code) }
{
    match profile {
        ProfileName::Report => matches!(code, Code::Report | Code::Item | Code::Component),
        ProfileName::Reply => false,
    }
}

// Whether a level of the code may hang under one of the parent's code, in a report.
#[tactic(auto, unfolding(crate::specs::Profile::may_hang))]
fn may_hang_in_report(parent: Code, child: Code) -> bool
    ensures { result ≡ may_hang nonconformance (number parent) (number child) }
{
    match parent {
        Code::Report => matches!(child, Code::Item),
        Code::Item => matches!(child, Code::Component | Code::Characteristic | Code::Serial),
        Code::Component => matches!(child, Code::Characteristic | Code::Serial),
        _ => false,
    }
}

// Whether a level of the code may hang under one whose code has the parent's number, which a table tells and may be any.
#[tactic(auto, unfolding(crate::specs::Profile::may_hang))]
pub(crate) fn may_hang(profile: ProfileName, parent: usize, child: Code) -> bool
    ensures { result ≡ may_hang (level_profile profile) parent (number child) }
{
    match (profile, numbered(parent)) {
        (ProfileName::Report, Some(parent)) => may_hang_in_report(parent, child),
        _ => false,
    }
}
