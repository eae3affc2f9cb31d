// A BIN, whose second element is ended by a count and may hold any byte: how its bytes begin, its count, and where what it counts starts.
ghost use Rattle.std.specs.Prelude.{◌≡◌, drop};
ghost use Rattle.text.specs.Bin.{begins_bin};
ghost use Rattle.text.specs.Lookup.{attached_from};
ghost use Rattle.text.specs.internal.Count.{count_from};

use crate::separators;

// A count, and where it ends.
#[derive(Clone, Copy, Debug, PartialEq, Eq, Drop)]
pub struct Counted {
    // The number, 1 at least.
    pub number: usize,
    // The place of the separator behind it.
    pub end: usize,
}

// Why no count stands there.
#[derive(Clone, Copy, Debug, PartialEq, Eq, Drop)]
pub enum Uncounted {
    // The bytes end before the separator, and nothing is wrong so far.
    Open,
    // A byte lets no count follow.
    Broken,
}

// Whether `BIN` and the element separator stand from `at` on.
#[tactic(auto, using(crate::proofs::Bins::begins_past))]
pub fn begins(s: &[u8], at: usize, element: u8) -> bool
    ensures { result ≡ begins_bin element (drop at s.now) }
{
    let Some(rest) = s.get(at..) else {
        return false;
    };
    rest.starts_with(&[b'B', b'I', b'N', element])
}

// The count from `from` on: 1 to 15 digits, which write 1 at least, and the element separator.
pub fn count(s: &[u8], from: usize, element: u8) -> Result<Counted, Uncounted>
    ensures { result ≡ count_from element 0 0 from (drop from s.now) }
{
    let Some(rest) = s.get(from..) else {
        return Err(Uncounted::Open);
    };
    let mut number = 0;
    for (digits, &b) in rest.iter().enumerate() {
        if b == element {
            if number == 0 {
                return Err(Uncounted::Broken);
            }
            return Ok(Counted {
                number,
                end: from + digits,
            });
        }
        if !separators::is_digit(b) {
            return Err(Uncounted::Broken);
        }
        number = number * 10 + usize::from(b - b'0');
        if (15 <= digits) | ((14 == digits) & (number == 0)) {
            return Err(Uncounted::Broken);
        }
    }
    Err(Uncounted::Open)
}

// Where BIN02 of a whole BIN starts; the end of any other segment.
#[tactic(auto, using(crate::proofs::BinSpans::unmarked, crate::proofs::BinSpans::count_inside, crate::proofs::BinSpans::attached_counted, crate::proofs::BinSpans::attached_otherwise, crate::proofs::BinSpans::attached_uncounted))]
pub fn attached_from(segment: &[u8], element: u8) -> usize
    ensures { result ≡ attached_from element segment.now }
{
    if !begins(segment, 0, element) {
        return segment.len();
    }
    match count(segment, 4, element) {
        Ok(Counted { number, end }) if segment.len() - end - 1 == number => end + 1,
        _ => segment.len(),
    }
}
