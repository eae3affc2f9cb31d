// Numbers of type R: whether a text fits, and the number that it writes.
ghost use Rattle.std.specs.Prelude.{◌≡◌, ◌<◌, ◌&&◌};
ghost use Rattle.std.specs.List.{prefix_len};
ghost use Rattle.text.specs.Bytes.{between};
ghost use Rattle.text.specs.Separators.{is_digit};
ghost use Rattle.types.specs.Reals.{is_negative, past};
ghost use Rattle.types.specs.Numbers.{signed, checked};
ghost use Rattle.types.specs.internal.NumberParts.{first_digits, Digits, exponent_written, exponent_of_in, number_of};

use crate::digits;
use text::separators;

// A number as its text writes it.
#[derive(Clone, Copy, Debug, PartialEq, Eq, Drop)]
pub struct Number {
    // Its signed digits as one whole number.
    pub value: i64,
    // How many of them stand behind the point.
    pub places: u8,
    // The exponent, if one is written.
    pub exponent: Option<i64>,
}

// Whether the text begins with a minus.
fn is_negative(text: &[u8]) -> bool
    ensures { result ≡ is_negative text.now }
{
    text.first() == Some(&b'-')
}

// The text without that first byte, where it begins with it.
fn past(text: &[u8], byte: u8) -> &[u8]
    ensures { result.now ≡ past byte text.now }
{
    match text {
        [first, rest @ ..] if *first == byte => rest,
        _ => text,
    }
}

// How many digits the text begins with.
fn digit_count(text: &[u8]) -> usize
    ensures { result ≡ prefix_len is_digit text.now }
{
    text.iter()
        .take_while(|b| separators::is_digit(**b))
        .count()
}

// The digits that the text begins with.
#[tactic(auto, using(crate::proofs::FirstDigits::digits_first))]
fn first_digits(text: &[u8]) -> &[u8]
    ensures { result.now ≡ first_digits text.now }
{
    &text[..digit_count(text)]
}

// A number by its sign and its size.
fn signed(negative: bool, size: usize) -> i64
    requires { size < 1000000000000000 }
    ensures { result ≡ signed negative size }
{
    let value = size as i64;
    if negative { -value } else { value }
}

// Whether a number may have so many digits: fifteen at most, and from least to most.
fn may_have(count: usize, least: usize, most: usize) -> bool
    ensures { result ≡ (between 1 15 count && between least most count) }
{
    (1..=15).contains(&count) & (least..=most).contains(&count)
}

// The exponent that the text writes: one or two digits, and a minus or none; nothing where it writes none.
#[tactic(auto, using(crate::proofs::Figures::digits_few))]
fn exponent(text: &[u8]) -> Option<i64>
    ensures { result ≡ exponent_written text.now }
{
    let figures = past(text, b'-');
    if !(matches!(figures.len(), 1..=2) && digits::is_number(figures)) {
        return None;
    }
    Some(signed(is_negative(text), digits::value_from(0, figures)))
}

// What stands behind the digits: no exponent, or `E` and one; nothing where it belongs to no number.
fn exponent_of(rest: &[u8]) -> Option<Option<i64>>
    ensures { result ≡ exponent_of_in rest.now }
{
    match rest {
        [] => Some(None),
        [b'E', text @ ..] => exponent(text).map(Some),
        _ => None,
    }
}

// The number that digits before and behind the point write, with a sign and an exponent.
fn written(negative: bool, whole: &[u8], fraction: &[u8], exponent: Option<i64>) -> Number
    requires { Digits whole.now fraction.now }
    ensures { result ≡ number_of negative whole.now fraction.now exponent }
{
    let size = digits::value_from(digits::value_from(0, whole), fraction);
    Number {
        value: signed(negative, size),
        places: fraction.len() as u8,
        exponent,
    }
}

// The number that a text of type R writes, with at least and at most so many digits; nothing where the text does not fit.
pub fn check_number(text: &[u8], least: usize, most: usize) -> Option<Number>
    ensures { result ≡ checked least most text.now }
{
    let unsigned = past(text, b'-');
    let whole = first_digits(unsigned);
    let point = whole.len();
    let behind = past(&unsigned[point..], b'.');
    let fraction = first_digits(behind);
    let places = fraction.len();
    let count = point + places;
    if !may_have(count, least, most) {
        return None;
    }
    let exponent = exponent_of(&behind[places..])?;
    Some(written(is_negative(text), whole, fraction, exponent))
}
