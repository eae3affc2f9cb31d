// Dates and times of day.
ghost use Rattle.std.specs.Prelude.{◌≡◌};
ghost use Rattle.types.specs.Types.{is_leap, days_in, is_date, is_time};

use crate::digits;

// A year divisible by 4, and not by 100 unless by 400.
pub(crate) fn is_leap(year: usize) -> bool
    ensures { result ≡ is_leap year }
{
    (year % 4 == 0) & ((year % 100 != 0) | (year % 400 == 0))
}

// The days in a month; 0 where there is no such month, as the definition `days_in` has it.
#[tactic(auto, using(crate::proofs::Months::thirty_one, crate::proofs::Months::no_month), unfolding(crate::specs::Types::days_in))]
pub(crate) fn days_in(year: usize, month: usize) -> usize
    ensures { result ≡ days_in year month }
{
    match month {
        2 => { if is_leap(year) { 29 } else { 28 } }
        4 | 6 | 9 | 11 => 30,
        1..=12 => 31,
        _ => 0,
    }
}

// Eight digits that write a day of the calendar.
#[tactic(auto, unfolding(crate::specs::Types::is_date))]
pub(crate) fn is_date(value: &[u8]) -> bool
    ensures { result ≡ is_date value.now }
{
    if !(value.len() == 8 && digits::is_number(value)) {
        return false;
    }
    let last = days_in(digits::figures(value, 0, 4), digits::figures(value, 4, 2));
    let day = digits::figures(value, 6, 2);
    (1 <= day) & (day <= last)
}

// Four, six, seven or eight digits that write a time of day.
#[tactic(auto, unfolding(crate::specs::Types::is_time))]
pub(crate) fn is_time(value: &[u8]) -> bool
    ensures { result ≡ is_time value.now }
{
    if !(matches!(value.len(), 4 | 6 | 7 | 8) && digits::is_number(value)) {
        return false;
    }
    if 23 < digits::figures(value, 0, 2) {
        return false;
    }
    if 59 < digits::figures(value, 2, 2) {
        return false;
    }
    if value.len() == 4 {
        return true;
    }
    digits::figures(value, 4, 2) <= 59
}
