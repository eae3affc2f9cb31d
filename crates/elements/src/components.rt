// The components of one element, and what is asked of them.
ghost use Rattle.std.specs.Prelude.{◌≡◌, ◌<◌};
ghost use Rattle.text.specs.Pieces.{pieces};
ghost use Rattle.elements.specs.Data.{value, unit_values};
ghost use Rattle.elements.specs.Rules.{complete_by, fits_simple, fits_each, suits_by};
ghost use Rattle.elements.specs.internal.Layouts.{components_by};
ghost use Rattle.elements.specs.internal.Components.{fits_unit};
ghost use Rattle.elements.specs.internal.Verdicts.{element_by};

use crate::rules::Rule;
use text::search;
use types::kind::Kind;
use types::values;

// Whether component j of the units is empty or fits: ID 2/2, R 1/15 and R 1/10 in turn.
fn fits_unit(j: usize, p: &[u8]) -> bool
    requires { j < 15 }
    ensures { result ≡ fits_unit j p.now }
{
    if p.is_empty() {
        return true;
    }
    match j % 3 {
        0 => values::fits(Kind::ID, 2, 2, p),
        1 => values::fits(Kind::R, 1, 15, p),
        _ => values::fits(Kind::R, 1, 10, p),
    }
}

// Whether each component of the units is empty or fits.
fn fits_units(p: &[u8], separator: u8) -> bool
    ensures { result ≡ fits_each unit_values (pieces separator p.now) }
{
    p.split(|b| *b == separator)
        .enumerate()
        .all(|(j, unit)| j < 15 && fits_unit(j, unit))
}

// Whether nothing mandatory is missing of an element with that rule.
pub(crate) fn is_complete(rule: Rule, single: bool, separator: u8, p: &[u8]) -> bool
    ensures { result ≡ complete_by (element_by rule) (components_by single separator p.now) }
{
    if p.is_empty() {
        return !rule.must;
    }
    if single || !rule.composite {
        return true;
    }
    p[0] != separator
}

// Whether each component of the units is empty or fits, where the segment may have no component separator.
fn suits_units(single: bool, separator: u8, p: &[u8]) -> bool
    ensures { result ≡ fits_each unit_values (components_by single separator p.now) }
{
    if single {
        return fits_unit(0, p);
    }
    fits_units(p, separator)
}

// Whether an element of one value is one component, and fits.
fn suits_value(rule: Rule, single: bool, separator: u8, p: &[u8]) -> bool
    ensures { result ≡ fits_simple (value rule.kind rule.least rule.most) (components_by single separator p.now) }
{
    let kind = rule.kind;
    if single {
        return values::fits(kind, rule.least, rule.most, p);
    }
    if search::holds(p, separator) {
        return false;
    }
    values::fits(kind, rule.least, rule.most, p)
}

// Whether an element with that rule is absent, or its type and length fit.
pub(crate) fn is_suited(rule: Rule, single: bool, separator: u8, p: &[u8]) -> bool
    ensures { result ≡ suits_by (element_by rule) (components_by single separator p.now) }
{
    if p.is_empty() {
        return true;
    }
    if rule.composite {
        return suits_units(single, separator, p);
    }
    suits_value(rule, single, separator, p)
}
