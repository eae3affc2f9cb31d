// The rules of each element of a ruled segment, by its layout.
ghost use Rattle.std.specs.Prelude.{◌≡◌, ◌<◌, length};
ghost use Rattle.elements.specs.internal.Layouts.{components_in};
ghost use Rattle.elements.specs.internal.Verdicts.{rules_of, elements_verdict, Reached};

use crate::layout::Parts;
use crate::verdict::{Reason, Verdict};
use crate::{components, rules};

// Answers 8 and 10 of the elements up to `upto`: the first that is incomplete, or else the first that does not suit.
fn elements_verdict(parts: Parts, component: u8, tag: u8, upto: usize) -> Verdict
    requires { upto < 32 }
    ensures { result ≡ elements_verdict (rules_of tag) (components_in parts.entry.bytes.now parts.entry.starts.now parts.entry.layout component) upto }
{
    let single = parts.layout.single;
    let mut unfit = None;
    for k in 1..upto + 1 {
        let rule = rules::rule_of(tag, k);
        let p = parts.element(k);
        if !components::is_complete(rule, single, component, p) {
            return Err(Reason::Missing.at_element(k));
        }
        if unfit.is_none() && !components::is_suited(rule, single, component, p) {
            unfit = Some(k);
        }
    }
    match unfit {
        None => Ok(()),
        Some(k) => Err(Reason::Unfit.at_element(k)),
    }
}

// The last element to look at: of those with a rule the last that is there or has to be.
fn reach(count: usize, needed: usize, last: usize) -> usize
    ensures { Reached count needed last result }
{
    count.max(needed).min(last)
}

// Answers 8 and 10 of a segment with that tag.
// Not inlined: it is seldom asked, and the reader's loop keeps more in registers without it.
#[inline(never)]
pub fn fitting_verdict(parts: Parts, component: u8, tag: u8) -> Verdict
    ensures { result ≡ elements_verdict (rules_of tag)
        (components_in parts.entry.bytes.now parts.entry.starts.now parts.entry.layout component) (length (rules_of tag).elements) }
{
    let extent = rules::extent_of(tag);
    let upto = reach(parts.layout.count, extent.needed, extent.last);
    elements_verdict(parts, component, tag, upto)
}
