// The usual ruled segments with no component separator, whose elements are told to suit their rules by quick tests and, of a number, by its
// check: shortcuts, which state no rule. Each is proved to pass only what the rule of its element passes; any other segment is left to the
// rules themselves.
ghost use Rattle.std.specs.Prelude.{◌≡◌, true};
ghost use Rattle.text.specs.Bytes.{bytes};
ghost use Rattle.rows.specs.Tags.{tag_number};
ghost use Rattle.rows.specs.declared.profile.ProfileName.TheVariants.{Report};
ghost use Rattle.elements.specs.Data.{units};
ghost use Rattle.ruling.specs.internal.Usual.{simple, Suits, SuitsAt, FromOne, Suiting, AllUsed};

use elements::layout::Parts;
use rows::profile::ProfileName;
use rows::tags;
use types::kind::Kind;
use types::{quick, values};

// A value of the type, of a length from least to most, that a quick test tells or, of a number or a type that has none, its check; or
// nothing where the element may be absent.
// Always inlined: the type is a constant at each call.
#[inline(always)]
fn suits(kind: Kind, must: bool, least: usize, most: usize, p: &[u8]) -> bool
    ensures { result ≡ true → Suits (simple must kind least most) p.now }
{
    if p.is_empty() {
        return !must;
    }
    match kind {
        Kind::AN => quick::text(p, least, most),
        Kind::ID => quick::short_id(p, least, most),
        Kind::R => quick::digits_alone(p, least, most) || values::fits(kind, least, most, p),
        Kind::DT => quick::early_date(p, least, most),
        Kind::TM => quick::short_time(p, least, most),
        Kind::Set842 => values::fits(kind, least, most, p),
        Kind::N0 => values::fits(kind, least, most, p),
    }
}

// A first unit of NCA05, or nothing.
fn unit_suits(p: &[u8]) -> bool
    ensures { result ≡ true → Suits units p.now }
{
    p.is_empty() || quick::short_id(p, 2, 2)
}

// A function for each tag, here and below, and no loop over the table of rules: what is usual is fewer elements than have rules, and each has its name.

// The first two elements of ST.
fn usual_st(parts: Parts) -> bool
    ensures { result ≡ true → FromOne (SuitsAt parts.entry.bytes.now parts.entry.starts.now parts.entry.layout (tag_number (bytes "ST"))) 2 }
{
    let set = parts.element(1);
    let control = parts.element(2);
    suits(Kind::Set842, true, 3, 3, set) & suits(Kind::AN, true, 4, 9, control)
}

// The first four elements of N1.
fn usual_n1(parts: Parts) -> bool
    ensures { result ≡ true → FromOne (SuitsAt parts.entry.bytes.now parts.entry.starts.now parts.entry.layout (tag_number (bytes "N1"))) 4 }
{
    let party = parts.element(1);
    let name = parts.element(2);
    let kind = parts.element(3);
    let code = parts.element(4);
    suits(Kind::ID, true, 2, 3, party)
        & suits(Kind::AN, false, 1, 60, name)
        & suits(Kind::ID, false, 1, 2, kind)
        & suits(Kind::AN, false, 2, 80, code)
}

// The first three elements of DTM.
fn usual_dtm(parts: Parts) -> bool
    ensures { result ≡ true → FromOne (SuitsAt parts.entry.bytes.now parts.entry.starts.now parts.entry.layout (tag_number (bytes "DTM"))) 3 }
{
    let code = parts.element(1);
    let date = parts.element(2);
    let time = parts.element(3);
    suits(Kind::ID, true, 3, 3, code)
        & suits(Kind::DT, false, 8, 8, date)
        & suits(Kind::TM, false, 4, 8, time)
}

// The first four elements of HL.
fn usual_hl(parts: Parts) -> bool
    ensures { result ≡ true → FromOne (SuitsAt parts.entry.bytes.now parts.entry.starts.now parts.entry.layout (tag_number (bytes "HL"))) 4 }
{
    let id = parts.element(1);
    let parent = parts.element(2);
    let code = parts.element(3);
    let mark = parts.element(4);
    suits(Kind::AN, true, 1, 12, id)
        & suits(Kind::AN, false, 1, 12, parent)
        & suits(Kind::ID, true, 1, 2, code)
        & suits(Kind::ID, false, 1, 1, mark)
}

// The first two elements of NTE.
fn usual_nte(parts: Parts) -> bool
    ensures { result ≡ true → FromOne (SuitsAt parts.entry.bytes.now parts.entry.starts.now parts.entry.layout (tag_number (bytes "NTE"))) 2 }
{
    let code = parts.element(1);
    let text = parts.element(2);
    suits(Kind::ID, false, 3, 3, code) & suits(Kind::AN, true, 1, 80, text)
}

// The first five elements of NCA.
fn usual_nca(parts: Parts) -> bool
    ensures { result ≡ true → FromOne (SuitsAt parts.entry.bytes.now parts.entry.starts.now parts.entry.layout (tag_number (bytes "NCA"))) 5 }
{
    let number = parts.element(1);
    let code = parts.element(2);
    let text = parts.element(3);
    let quantity = parts.element(4);
    let unit = parts.element(5);
    suits(Kind::AN, false, 1, 20, number)
        & suits(Kind::ID, false, 1, 2, code)
        & suits(Kind::AN, false, 1, 80, text)
        & suits(Kind::R, false, 1, 15, quantity)
        & unit_suits(unit)
}

// The first two elements of SE.
fn usual_se(parts: Parts) -> bool
    ensures { result ≡ true → FromOne (SuitsAt parts.entry.bytes.now parts.entry.starts.now parts.entry.layout (tag_number (bytes "SE"))) 2 }
{
    let total = parts.element(1);
    let control = parts.element(2);
    suits(Kind::N0, true, 1, 10, total) & suits(Kind::AN, true, 4, 9, control)
}

// Whether the profile wants no element of an HL absent.
fn wants_none_absent(profile: ProfileName) -> bool
    ensures { result ≡ true → profile ≡ Report }
{
    matches!(profile, ProfileName::Report)
}

// Whether all elements of a segment with that tag do, where it has no more than the first few. The HL of a reply is left to the rules.
pub(crate) fn usual(parts: Parts, profile: ProfileName, tag: u8) -> bool
    ensures { result ≡ true → Suiting parts.entry.bytes.now parts.entry.starts.now parts.entry.layout tag × AllUsed profile tag }
{
    match tag {
        tags::ST => (parts.layout.count <= 2) & usual_st(parts),
        tags::N1 => (parts.layout.count <= 4) & usual_n1(parts),
        tags::DTM => (parts.layout.count <= 3) & usual_dtm(parts),
        tags::HL => wants_none_absent(profile) & ((parts.layout.count <= 4) & usual_hl(parts)),
        tags::NTE => (parts.layout.count <= 2) & usual_nte(parts),
        tags::NCA => (parts.layout.count <= 5) & usual_nca(parts),
        tags::SE => (parts.layout.count <= 2) & usual_se(parts),
        _ => false,
    }
}
