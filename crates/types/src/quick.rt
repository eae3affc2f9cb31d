// Quick tests of values: each admits the usual values of its type by a few comparisons, and no other value that does not fit.
// Each has a function, since each promises its own.
ghost use Rattle.std.specs.Prelude.{◌≡◌};
ghost use Rattle.types.specs.internal.Quick.{is_short_id, is_early_date, is_short_time, is_sized, fits_quickly};
ghost use Rattle.types.specs.declared.kind.Kind.TheVariants.{AN, ID, R, DT, TM};

use crate::values::is_id_byte;
use crate::{dates, digits};

// An ID of up to three bytes.
#[tactic(auto, unfolding(crate::specs::internal::Quick::is_short_id))]
fn is_short_id(value: &[u8]) -> bool
    ensures { result ≡ is_short_id value.now }
{
    match value {
        [] => true,
        [a] => is_id_byte(*a),
        [a, b] => is_id_byte(*a) & is_id_byte(*b),
        [a, b, c] => is_id_byte(*a) & is_id_byte(*b) & is_id_byte(*c),
        _ => false,
    }
}

// A date with a day up to the 28th, which every month of every year has.
#[tactic(auto, unfolding(crate::specs::internal::Quick::is_early_date))]
fn is_early_date(value: &[u8]) -> bool
    ensures { result ≡ is_early_date value.now }
{
    if !(value.len() == 8 && digits::is_number(value)) {
        return false;
    }
    let month = digits::figures(value, 4, 2);
    let day = digits::figures(value, 6, 2);
    matches!(month, 1..=12) & matches!(day, 1..=28)
}

// A time in hours and minutes.
#[tactic(auto, unfolding(crate::specs::internal::Quick::is_short_time))]
fn is_short_time(value: &[u8]) -> bool
    ensures { result ≡ is_short_time value.now }
{
    value.len() == 4 && dates::is_time(value)
}

// Whether the value has a byte, and a length from least to most.
#[tactic(auto, unfolding(crate::specs::internal::Quick::is_sized))]
fn is_sized(value: &[u8], least: usize, most: usize) -> bool
    ensures { result ≡ is_sized least most value.now }
{
    (1 <= value.len()) & (least <= value.len()) & (value.len() <= most)
}

// Any bytes, of a length from least to most.
#[tactic(auto, unfolding(crate::specs::internal::Quick::fits_quickly))]
pub fn text(value: &[u8], least: usize, most: usize) -> bool
    ensures { result ≡ fits_quickly AN least most value.now }
{
    is_sized(value, least, most)
}

// An ID of up to three bytes, of a length from least to most.
#[tactic(auto, unfolding(crate::specs::internal::Quick::fits_quickly))]
pub fn short_id(value: &[u8], least: usize, most: usize) -> bool
    ensures { result ≡ fits_quickly ID least most value.now }
{
    is_sized(value, least, most) && is_short_id(value)
}

// An R of up to fifteen digits alone, of a length from least to most.
#[tactic(auto, unfolding(crate::specs::internal::Quick::fits_quickly))]
pub fn digits_alone(value: &[u8], least: usize, most: usize) -> bool
    ensures { result ≡ fits_quickly R least most value.now }
{
    is_sized(value, least, most) && value.len() <= 15 && digits::is_number(value)
}

// A date with a day up to the 28th, of a length from least to most.
#[tactic(auto, unfolding(crate::specs::internal::Quick::fits_quickly))]
pub fn early_date(value: &[u8], least: usize, most: usize) -> bool
    ensures { result ≡ fits_quickly DT least most value.now }
{
    is_sized(value, least, most) && is_early_date(value)
}

// A time in hours and minutes, of a length from least to most.
#[tactic(auto, unfolding(crate::specs::internal::Quick::fits_quickly))]
pub fn short_time(value: &[u8], least: usize, most: usize) -> bool
    ensures { result ≡ fits_quickly TM least most value.now }
{
    is_sized(value, least, most) && is_short_time(value)
}
