// Judging the next segment by the rules, in order.
ghost use Rattle.std.specs.Prelude.{◌≡◌};
ghost use Rattle.text.specs.View.{plain_view};
ghost use Rattle.rows.specs.Tags.{tag_number};
ghost use Rattle.rows.specs.NextTable.{NextTable};
ghost use Rattle.elements.specs.Checks.{first_broken};
ghost use Rattle.elements.specs.internal.Layouts.{element_in};
ghost use Rattle.elements.specs.Rules.{end_checks};
ghost use Rattle.reading.specs.internal.Cutting.{segment_of};
ghost use Rattle.reading.specs.internal.Judgements.{opening_control, closing_in, Inside, broken_by, JudgesLate, KnownTag, JudgesNext};

use crate::placing;
use crate::storing::NewLevel;
use elements::layout::Parts;
use elements::verdict::{Fault, Reason, Verdict};
use elements::{rules, segment};
use finding::lists::LISTS;
use finding::{filling, lists, notes};
use gate::how::How;
use levels::widths::SEGMENT_WIDTH;
use numbering::next;
use rows::list::ENTRIES;
use rows::{profile, tags};
use ruling::ruled;
use text::separators::Separators;
use text::{compare, lookup};
use types::digits;

// What a segment is that breaks no rule.
#[derive(Clone, Copy, Drop)]
pub(crate) enum Judgement {
    // Its row; it makes no level and does not close the transaction.
    Other(u8),
    // Its row, and the level that it makes.
    Level { row: u8, level: NewLevel },
    // The row of the SE that closes the transaction.
    Last(u8),
}

// The records of the segments so far and of their levels, and the last level of each list.
#[derive(Clone, Copy, Drop)]
pub(crate) struct Records<'a> {
    pub segments: &'a [u64],
    pub levels: &'a [u64],
    pub lasts: &'a [u32; LISTS],
}

// What the reader carries from segment to segment: how many segments were passed, the last row, how many levels they made, and
// whether the row stands for the second time in a row, the row and this as `row_after` takes them. The two small fields stand apart, since they are copied faster so.
#[derive(Clone, Copy, Drop)]
pub(crate) struct State {
    pub count: usize,
    pub row: u8,
    pub levels: usize,
    pub again: bool,
}

impl State {
    // Before the first segment.
    pub const START: State = State {
        count: 0,
        row: 0,
        levels: 0,
        again: false,
    };
}

// The number of the segment's tag.
fn tag_of(parts: Parts) -> u8
    ensures { result ≡ tag_number (element_in parts.entry.bytes.now parts.entry.starts.now parts.entry.layout 0) }
{
    tags::tag_number(parts.element(0))
}

// The second element of the first segment, which starts with the bytes.
fn opening_control<'a>(s: &'a [u8], separators: Separators, segments: &[u64]) -> &'a [u8]
    ensures { result.now ≡ opening_control s.now separators.element segments.now }
{
    let Some(record) = segments.get(..SEGMENT_WIDTH) else {
        return &[];
    };
    let Some(first) = s.get(..record[1] as usize) else {
        return &[];
    };
    lookup::lookup(first, separators, 2, 0)
}

// The verdict of the closing rules on an SE.
fn judge_se(separators: Separators, parts: Parts, state: State, records: Records) -> Verdict
    ensures { result ≡ first_broken (closing_in parts.entry.bytes.now separators.element parts.entry.starts.now parts.entry.layout records.entry.segments.now records.entry.levels.now state) }
{
    let total = parts.element(1);
    let told = digits::number_of(total);
    if told.checked_sub(1) != Some(state.count) {
        return Err(Reason::BadClose.at_element(1));
    }
    let control = parts.element(2);
    let opening = opening_control(parts.bytes, separators, records.segments);
    if !compare::same_bytes(control, opening) {
        return Err(Reason::BadClose.at_element(2));
    }
    if !filling::all_filled(records.levels, state.levels) {
        return Err(Reason::BadMark.at_element(0));
    }
    Ok(())
}

// Rule 6 broken, where the pass found it so: the fault with its element.
// Not inlined: it is seldom asked, and the reader's loop keeps more in registers without it.
#[inline(never)]
fn bad_end(separators: Separators, parts: Parts) -> Fault
    requires { Inside parts.bytes.now parts.layout }
    ensures { result ≡ broken_by (first_broken (end_checks (plain_view separators (segment_of parts.entry.bytes.now parts.entry.layout)))) }
{
    let Parts { bytes, layout, .. } = parts;
    match segment::end_verdict(&bytes[layout.at..layout.end], separators) {
        Err(fault) => fault,
        Ok(()) => Reason::BadEnd.at_element(0),
    }
}

// The rules of levels and of closing, for a segment that keeps all others and has that tag and row.
fn judge_late(
    how: How,
    parts: Parts,
    state: State,
    records: Records,
    tag: u8,
    row: u8,
) -> Result<Judgement, Fault>
    ensures { JudgesLate how parts.entry.bytes.now parts.entry.starts.now parts.entry.layout state records.entry.segments.now records.entry.levels.now records.entry.lasts.now tag row result }
{
    if tag == tags::HL {
        let place = lists::place_of(parts.element(1));
        let asks = notes::asks_of(parts.element(4));
        let entitled = placing::judge_level(how, parts, place, records)?;
        let level = NewLevel {
            parent: entitled.parent,
            depth: entitled.depth,
            code: entitled.code,
            asks,
            place,
        };
        return Ok(Judgement::Level { row, level });
    }
    if tag == tags::SE {
        judge_se(how.separators, parts, state, records)?;
        return Ok(Judgement::Last(row));
    }
    Ok(Judgement::Other(row))
}

// The rules of rows, then those of elements and the late ones, which a plain segment does not have, for a segment of a known tag of which
// rule 6 holds.
fn judge_known(
    how: How,
    table: &[u8; ENTRIES],
    parts: Parts,
    state: State,
    records: Records,
    tag: u8,
) -> Result<Judgement, Fault>
    requires next_table { NextTable table.now }
    requires known_tag { KnownTag parts.bytes.now parts.starts.now parts.layout tag }
    ensures { JudgesNext how parts.entry.bytes.now parts.entry.starts.now parts.entry.layout state records.entry.segments.now records.entry.levels.now records.entry.lasts.now result }
{
    let Some(row) = next::row_after(table, state.row, state.again, tag) else {
        return Err(Reason::NoRow.at_element(0));
    };
    if !profile::admits(how.profile, row) {
        return Err(Reason::ForeignRow.at_element(0));
    }
    if rules::is_plain(tag) {
        return Ok(Judgement::Other(row));
    }
    ruled::ruled_verdict(parts, how.separators.component, how.profile, tag)?;
    judge_late(how, parts, state, records, tag, row)
}

// What the rules say of the next segment, by where the reader stands: the first that it breaks, or what it is.
#[tactic(auto, using(crate::proofs::reader::JudgeSteps::tag_refused))]
pub(crate) fn judge(
    how: How,
    table: &[u8; ENTRIES],
    parts: Parts,
    state: State,
    records: Records,
) -> Result<Judgement, Fault>
    requires next_table { NextTable table.now }
    requires inside { Inside parts.bytes.now parts.layout }
    ensures { JudgesNext how parts.entry.bytes.now parts.entry.starts.now parts.entry.layout state records.entry.segments.now records.entry.levels.now records.entry.lasts.now result }
{
    let tag = tag_of(parts);
    if tags::NO_TAG <= tag {
        return Err(Reason::UnknownTag.at_element(0));
    }
    if !parts.layout.ended {
        return Err(bad_end(how.separators, parts));
    }
    judge_known(how, table, parts, state, records, tag)
}
