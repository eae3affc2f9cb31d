// The rules of elements, by tag and element number.
ghost use Rattle.std.specs.Prelude.{◌≡◌, false, eqb, length, get_or};
ghost use Rattle.text.specs.Bytes.{bytes};
ghost use Rattle.rows.specs.Tags.{tag_number};
ghost use Rattle.elements.specs.Rules.{rule_of};
ghost use Rattle.elements.specs.internal.Verdicts.{Renders, rules_of};
ghost use Rattle.elements.specs.internal.Table.{no_entry, rule_table, rule_by, extent_of};

use rows::tags;
use types::kind::Kind;

// One element: whether it is mandatory, whether it is the composite of units, and its type and lengths, or those of its first component.
#[derive(Clone, Copy, Drop)]
pub(crate) struct Rule {
    pub must: bool,
    pub composite: bool,
    pub kind: Kind,
    pub least: usize,
    pub most: usize,
}

// The fields of a rule, as they stand in the table.
#[derive(Clone, Copy, Drop)]
pub(crate) struct Entry(pub bool, pub bool, pub Kind, pub u8, pub u8);

// The rules of a segment: where they start in the table, how many elements have one, and the last element that is mandatory.
#[derive(Clone, Copy, Drop)]
pub(crate) struct Extent {
    pub first: usize,
    pub last: usize,
    pub needed: usize,
}

// LIN's rules are computed from the element number.
const RULES: [Entry; 27] = [
    Entry(true, false, Kind::Set842, 3, 3), // ST01
    Entry(true, false, Kind::AN, 4, 9), // ST02
    Entry(true, false, Kind::ID, 2, 3), // N101
    Entry(false, false, Kind::AN, 1, 60), // N102
    Entry(false, false, Kind::ID, 1, 2), // N103
    Entry(false, false, Kind::AN, 2, 80), // N104
    Entry(false, false, Kind::ID, 2, 2), // N105
    Entry(false, false, Kind::ID, 2, 3), // N106
    Entry(true, false, Kind::ID, 3, 3), // DTM01
    Entry(false, false, Kind::DT, 8, 8), // DTM02
    Entry(false, false, Kind::TM, 4, 8), // DTM03
    Entry(false, false, Kind::ID, 2, 2), // DTM04
    Entry(false, false, Kind::ID, 2, 3), // DTM05
    Entry(false, false, Kind::AN, 1, 35), // DTM06
    Entry(true, false, Kind::AN, 1, 12), // HL01
    Entry(false, false, Kind::AN, 1, 12), // HL02
    Entry(true, false, Kind::ID, 1, 2), // HL03
    Entry(false, false, Kind::ID, 1, 1), // HL04
    Entry(false, false, Kind::ID, 3, 3), // NTE01
    Entry(true, false, Kind::AN, 1, 80), // NTE02
    Entry(false, false, Kind::AN, 1, 20), // NCA01
    Entry(false, false, Kind::ID, 1, 2), // NCA02
    Entry(false, false, Kind::AN, 1, 80), // NCA03
    Entry(false, false, Kind::R, 1, 15), // NCA04
    Entry(false, true, Kind::ID, 2, 2), // NCA05
    Entry(true, false, Kind::N0, 1, 10), // SE01
    Entry(true, false, Kind::AN, 4, 9), // SE02
];

// An element that nothing is asked of.
const FREE: Entry = Entry(false, false, Kind::AN, 0, 0);

// The entry at a place of the table; past its end, one that asks for nothing.
fn entry_at(place: usize) -> Entry
    ensures { result ≡ get_or rule_table place no_entry }
{
    RULES.get(place).copied().unwrap_or(FREE)
}

impl From<Entry> for Rule {
    ghost from_gives = { λ entry rule. rule ≡ rule_by entry };

    fn from(entry: Entry) -> Rule {
        let Entry(must, composite, kind, least, most) = entry;
        Rule {
            must,
            composite,
            kind,
            least: usize::from(least),
            most: usize::from(most),
        }
    }
}

// The rule of an element that is no composite.
fn simple(must: bool, kind: Kind, least: u8, most: u8) -> Rule
    ensures { result ≡ rule_by (must, false, kind, least, most) }
{
    Rule::from(Entry(must, false, kind, least, most))
}

// The rule of element k of LIN: a number, then fifteen pairs of a qualifier and a value, the first of them mandatory.
fn item_rule(k: usize) -> Rule
    ensures { Renders (rule_of (rules_of (tag_number (bytes "LIN"))) k) result }
{
    if (k == 0) | (31 < k) {
        return Rule::from(FREE);
    }
    if k == 1 {
        return simple(false, Kind::AN, 1, 20);
    }
    if k % 2 == 0 {
        return simple(k == 2, Kind::ID, 2, 2);
    }
    simple(k == 3, Kind::AN, 1, 48)
}

// The rules of a segment with that tag; a plain segment has none.
#[tactic(auto, unfolding(crate::specs::internal::Table::extent_of, crate::specs::internal::Verdicts::rules_of, rows::specs::Tags::tag_number))]
pub(crate) fn extent_of(tag: u8) -> Extent
    ensures { result ≡ extent_of tag }
{
    let (first, last, needed) = match tag {
        tags::ST => (0, 2, 2),
        tags::N1 => (2, 6, 1),
        tags::DTM => (8, 6, 1),
        tags::HL => (14, 4, 3),
        tags::LIN => (18, 31, 3),
        tags::NTE => (18, 2, 2),
        tags::NCA => (20, 5, 0),
        tags::SE => (25, 2, 2),
        _ => (27, 0, 0),
    };
    Extent {
        first,
        last,
        needed,
    }
}

// The last element of a segment with that tag that has a rule; a plain segment has none.
#[tactic(auto, unfolding(crate::specs::internal::Table::extent_of))]
pub fn last_ruled(tag: u8) -> usize
    ensures { result ≡ length (rules_of tag).elements }
{
    extent_of(tag).last
}

// Whether a segment with that tag is plain: no element of it has a rule.
#[tactic(auto, unfolding(crate::specs::internal::Verdicts::rules_of, rows::specs::Tags::tag_number))]
pub fn is_plain(tag: u8) -> bool
    ensures { result ≡ eqb (length (rules_of tag).elements) 0 }
{
    last_ruled(tag) == 0
}

// The rule of element k of a segment with that tag; one that asks for nothing where there is none.
pub(crate) fn rule_of(tag: u8, k: usize) -> Rule
    ensures { Renders (rule_of (rules_of tag) k) result }
{
    if tag == tags::LIN {
        return item_rule(k);
    }
    let extent = extent_of(tag);
    if (k == 0) | (extent.last < k) {
        return Rule::from(FREE);
    }
    Rule::from(entry_at(extent.first + k - 1))
}
