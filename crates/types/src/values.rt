// Whether a value is of a type, and of a length.
ghost use Rattle.std.specs.Prelude.{◌≡◌, length};
ghost use Rattle.text.specs.Bytes.{between};
ghost use Rattle.text.specs.Separators.{is_id_byte};
ghost use Rattle.types.specs.Types.{is_id, is_of, fits};

use crate::kind::Kind;
use crate::{dates, digits, numbers};
use text::compare;

// A capital letter or a digit. Without branches, which patterns of ranges would bring.
pub(crate) fn is_id_byte(b: u8) -> bool
    ensures { result ≡ is_id_byte b }
{
    ((b'A' <= b) & (b <= b'Z')) | ((b'0' <= b) & (b <= b'9'))
}

// Capital letters and digits alone.
pub(crate) fn is_id(value: &[u8]) -> bool
    ensures { result ≡ is_id value.now }
{
    value.iter().all(|b| is_id_byte(*b))
}

// The text 842.
pub(crate) fn is_842(value: &[u8]) -> bool
    ensures { result ≡ is_of Kind.Set842 value.now }
{
    compare::same_bytes(value, b"842")
}

// Whether the value has a length from least to most.
fn is_long(value: &[u8], least: usize, most: usize) -> bool
    ensures { result ≡ between least most (length value.now) }
{
    (least..=most).contains(&value.len())
}

// Whether the value is of the type and has a length from least to most.
#[tactic(auto, using(crate::proofs::NumberChecks::checked_fit), unfolding(crate::specs::Types::fits))]
pub fn fits(kind: Kind, least: usize, most: usize, value: &[u8]) -> bool
    ensures { result ≡ fits kind least most value.now }
{
    match kind {
        Kind::AN => is_long(value, least, most),
        Kind::ID => is_long(value, least, most) && is_id(value),
        Kind::Set842 => is_long(value, least, most) && is_842(value),
        Kind::N0 => is_long(value, least, most) && digits::is_number(value),
        Kind::R => numbers::check_number(value, least, most).is_some(),
        Kind::DT => is_long(value, least, most) && dates::is_date(value),
        Kind::TM => is_long(value, least, most) && dates::is_time(value),
    }
}
