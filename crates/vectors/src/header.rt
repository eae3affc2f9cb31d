// What the header of a case says, at its places.
ghost use Rattle.std.specs.Prelude.{◌<◌};

use rows::profile::ProfileName;
use text::lines::LineEnds;
use text::separators::Separators;

pub(crate) type Header = [u8; 16];

// Two bytes as a number, the lower first.
pub(crate) fn two_at(header: &Header, at: usize) -> usize
    requires { at < 15 }
    ensures { result < 65536 }
{
    usize::from(u16::from_le_bytes([header[at], header[at + 1]]))
}

// Three bytes.
pub(crate) fn three_at(header: &Header, at: usize) -> usize
    requires { at < 14 }
    ensures { result < 16777216 }
{
    let top = usize::from(header[at + 2]);
    two_at(header, at) + 65536 * top
}

// Three separators.
pub(crate) fn separators_at(header: &Header, at: usize) -> Separators
    requires { at < 14 }
{
    Separators {
        element: header[at],
        component: header[at + 1],
        terminator: header[at + 2],
    }
}

// The choice of line ends of a reading: strict where the lowest bit is set.
pub(crate) fn lines(header: &Header) -> LineEnds {
    if header[11] % 2 == 1 {
        LineEnds::Strict
    } else {
        LineEnds::Skipped
    }
}

// The profile of a reading: that of replies where the next bit is set.
pub(crate) fn profile(header: &Header) -> ProfileName {
    if header[11] / 2 % 2 == 1 {
        ProfileName::Reply
    } else {
        ProfileName::Report
    }
}
