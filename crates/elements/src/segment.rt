// The rules of any segment that is cut at its separators, as all but a BIN are: its bytes, and how its elements end.
ghost use Rattle.std.specs.Prelude.{◌≡◌};
ghost use Rattle.text.specs.View.{plain_view};
ghost use Rattle.elements.specs.Checks.{first_broken};
ghost use Rattle.elements.specs.Rules.{data_checks, end_checks};

use crate::verdict::{Reason, Verdict};
use text::separators::Separators;

// Answer 5: the first element with a byte that is neither data nor a separator; the tag is 0.
pub fn byte_verdict(segment: &[u8], separators: Separators) -> Verdict
    ensures { result ≡ first_broken (data_checks (plain_view separators segment.now)) }
{
    let Separators {
        element,
        component,
        ..
    } = separators;
    let mut k: usize = 0;
    for &b in segment {
        if b == element {
            k += 1;
        } else if !((b == component) | ((32 <= b) & (b <= 126))) {
            return Err(Reason::BadByte.at_element(k));
        }
    }
    Ok(())
}

// Answer 6: no element, or the first element that ends with an empty component, or an empty last element.
pub fn end_verdict(segment: &[u8], separators: Separators) -> Verdict
    ensures { result ≡ first_broken (end_checks (plain_view separators segment.now)) }
{
    let Separators {
        element,
        component,
        ..
    } = separators;
    let mut k: usize = 0;
    // The element has no byte so far; its last component has none.
    let mut bare = true;
    let mut hollow = true;
    for &b in segment {
        if b == element {
            if (k != 0) & hollow & !bare {
                return Err(Reason::BadEnd.at_element(k));
            }
            k += 1;
            bare = true;
            hollow = true;
        } else {
            bare = false;
            hollow = b == component;
        }
    }
    if (k == 0) | bare | hollow {
        return Err(Reason::BadEnd.at_element(k));
    }
    Ok(())
}
