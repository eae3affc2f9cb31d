// The rules of a ruled segment, by its layout.
ghost use Rattle.std.specs.Prelude.{◌≡◌, ◌+◌, ◌<◌, [], ◌∷◌};
ghost use Rattle.elements.specs.Checks.{first_broken};
ghost use Rattle.elements.specs.Data.{Paired, Required, pairs_from, rules_dtm, element_profile};
ghost use Rattle.elements.specs.Rules.{rule_of, few_components, is_unused, note_holds, note_checks, ruled_checks};
ghost use Rattle.elements.specs.internal.Layouts.{there_in, components_in, layout_view};
ghost use Rattle.elements.specs.internal.Verdicts.{rules_of};
ghost use Rattle.ruling.specs.internal.Early.{unused_verdict, many_verdict, early_by};

use crate::{units, usual};
use elements::layout::Parts;
use elements::verdict::{Reason, Verdict};
use elements::{fitting, rules};
use rows::profile::ProfileName;
use rows::tags;

// Whether element k is present.
fn is_there(parts: Parts, k: usize) -> bool
    requires { k < 32 }
    ensures { result ≡ there_in parts.entry.bytes.now parts.entry.starts.now parts.entry.layout k }
{
    !parts.element(k).is_empty()
}

// Whether element k and the next are both present, or both absent.
fn is_paired(parts: Parts, k: usize) -> bool
    requires { k < 31 }
    ensures { result ≡ note_holds (there_in parts.entry.bytes.now parts.entry.starts.now parts.entry.layout) (Paired (k ∷ ((k + 1) ∷ []))) }
{
    is_there(parts, k) == is_there(parts, k + 1)
}

// N1 and NCA: R0203, and the pair from element `pair` on.
fn party_notes(parts: Parts, pair: usize) -> Verdict
    requires { pair < 31 }
    ensures { result ≡ first_broken (note_checks (Required (2 ∷ (3 ∷ [])) ∷ (Paired (pair ∷ ((pair + 1) ∷ [])) ∷ []))
        (there_in parts.entry.bytes.now parts.entry.starts.now parts.entry.layout)) }
{
    let name = is_there(parts, 2);
    let code = is_there(parts, 3);
    Reason::BrokenNote.unless(name | code, 2)?;
    Reason::BrokenNote.unless(is_paired(parts, pair), pair)
}

// DTM: R020305, C0403, P0506.
fn date_notes(parts: Parts) -> Verdict
    ensures { result ≡ first_broken (note_checks rules_dtm.notes (there_in parts.entry.bytes.now parts.entry.starts.now parts.entry.layout)) }
{
    let date = is_there(parts, 2);
    let time = is_there(parts, 3);
    let zone = is_there(parts, 4);
    let format = is_there(parts, 5);
    Reason::BrokenNote.unless(date | time | format, 2)?;
    Reason::BrokenNote.unless(!zone | time, 4)?;
    Reason::BrokenNote.unless(is_paired(parts, 5), 5)
}

// LIN: P0405, P0607, .. P3031.
// Not inlined: it is seldom asked, and the reader's loop keeps more in registers without it.
#[inline(never)]
fn item_notes(parts: Parts) -> Verdict
    requires { parts.layout.count < 32 }
    ensures { result ≡ first_broken (note_checks (pairs_from 4 14) (there_in parts.entry.bytes.now parts.entry.starts.now parts.entry.layout)) }
{
    for pair in 2..=parts.layout.count / 2 {
        let k = 2 * pair;
        Reason::BrokenNote.unless(is_paired(parts, k), k)?;
    }
    Ok(())
}

// Answer 11: the first note that is broken.
fn notes_verdict(parts: Parts, tag: u8) -> Verdict
    requires { parts.layout.count < 32 }
    ensures { result ≡ first_broken (note_checks (rules_of tag).notes (there_in parts.entry.bytes.now parts.entry.starts.now parts.entry.layout)) }
{
    match tag {
        tags::N1 => party_notes(parts, 3),
        tags::DTM => date_notes(parts),
        tags::LIN => item_notes(parts),
        tags::NCA => party_notes(parts, 4),
        _ => Ok(()),
    }
}

// Whether element 5 has no more components than its rule allows: NCA05 alone is a composite.
fn is_few(parts: Parts, component: u8, tag: u8) -> bool
    ensures { result ≡ few_components (rule_of (rules_of tag) 5).shape
        (components_in parts.entry.bytes.now parts.entry.starts.now parts.entry.layout component 5) }
{
    if tag != tags::NCA {
        return true;
    }
    units::few_units(parts.layout.single, component, parts.element(5))
}

// Answer 9: the first element with too many components, or past the last.
// Not inlined: it is seldom asked, and the reader's loop keeps more in registers without it.
#[inline(never)]
fn too_many(parts: Parts, component: u8, tag: u8) -> Verdict
    ensures { result ≡ many_verdict (rules_of tag) (components_in parts.entry.bytes.now parts.entry.starts.now parts.entry.layout component) parts.entry.layout.count }
{
    if !is_few(parts, component, tag) {
        return Err(Reason::TooMany.at_element(5));
    }
    let last = rules::last_ruled(tag);
    if last < parts.layout.count {
        return Err(Reason::TooMany.at_element(last + 1));
    }
    Ok(())
}

// Answer 9 of an element that the profile wants absent: HL02 and HL04 of a reply.
// Not inlined: it is seldom asked, and the reader's loop keeps more in registers without it.
#[inline(never)]
fn unused_verdict(parts: Parts, profile: ProfileName, tag: u8) -> Verdict
    ensures { result ≡ unused_verdict (is_unused (element_profile profile) tag) (there_in parts.entry.bytes.now parts.entry.starts.now parts.entry.layout) parts.entry.layout.count }
{
    match profile {
        ProfileName::Report => Ok(()),
        ProfileName::Reply => {
            if tag != tags::HL {
                return Ok(());
            }
            if is_there(parts, 2) {
                return Err(Reason::TooMany.at_element(2));
            }
            if is_there(parts, 4) {
                return Err(Reason::TooMany.at_element(4));
            }
            Ok(())
        }
    }
}

// Answers 9, 8 and 10 of a segment with that tag, by the profile. Of a usual segment all three are silent.
fn early_verdict(parts: Parts, component: u8, profile: ProfileName, tag: u8) -> Verdict
    ensures { result ≡ early_by profile tag (there_in parts.entry.bytes.now parts.entry.starts.now parts.entry.layout)
        (components_in parts.entry.bytes.now parts.entry.starts.now parts.entry.layout component) parts.entry.layout.count }
{
    if parts.layout.single & usual::usual(parts, profile, tag) {
        return Ok(());
    }
    unused_verdict(parts, profile, tag)?;
    too_many(parts, component, tag)?;
    fitting::fitting_verdict(parts, component, tag)
}

// Answers 9, 8, 10 and 11 of a segment with that tag, by the profile.
pub fn ruled_verdict(parts: Parts, component: u8, profile: ProfileName, tag: u8) -> Verdict
    ensures { result ≡ first_broken (ruled_checks (element_profile profile) tag
        (layout_view parts.entry.bytes.now parts.entry.starts.now parts.entry.layout component)) }
{
    if rules::is_plain(tag) {
        return Ok(());
    }
    early_verdict(parts, component, profile, tag)?;
    notes_verdict(parts, tag)
}
