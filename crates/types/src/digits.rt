// Digits, and the numbers they write.
ghost use Rattle.std.specs.Prelude.{◌≡◌};
ghost use Rattle.text.specs.Bytes.{value_from};
ghost use Rattle.types.specs.Types.{is_number, number_of, figures};
ghost use Rattle.types.specs.internal.Parts.{Valued, Written};

use text::separators;

// Digits alone.
pub(crate) fn is_number(value: &[u8]) -> bool
    ensures { result ≡ is_number value.now }
{
    value.iter().all(|b| separators::is_digit(*b))
}

// The number that digits write behind a first number.
pub(crate) fn value_from(first: usize, digits: &[u8]) -> usize
    requires { Valued first digits.now }
    ensures { result ≡ value_from first digits.now }
{
    let mut n = first;
    for digit in digits {
        n = n * 10 + usize::from(*digit - b'0');
    }
    n
}

// The number that `count` digits from `from` on write.
#[tactic(auto, using(crate::proofs::Figures::written_part))]
pub(crate) fn figures(value: &[u8], from: usize, count: usize) -> usize
    requires { Written value.now from count }
    ensures { result ≡ figures from count value.now }
{
    value_from(0, &value[from..from + count])
}

// The number that one to ten digits write; 0 for any other value, and no `None`, as the definition `number_of` has it.
#[tactic(auto, unfolding(crate::specs::Types::number_of))]
pub fn number_of(value: &[u8]) -> usize
    ensures { result ≡ number_of value.now }
{
    if matches!(value.len(), 1..=10) && is_number(value) {
        return figures(value, 0, value.len());
    }
    0
}
