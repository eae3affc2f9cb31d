// Reading one transaction, segment after segment.
ghost use Rattle.std.specs.Prelude.{◌≡◌, ◌+◌, ◌≤◌, length};
ghost use Rattle.text.specs.View.{plain_view};
ghost use Rattle.text.specs.Separators.{Fitted};
ghost use Rattle.rows.specs.NextTable.{NextTable};
ghost use Rattle.elements.specs.Checks.{first_broken};
ghost use Rattle.elements.specs.Rules.{data_checks};
ghost use Rattle.reading.specs.internal.SpecialBytes.{SpecialTable};
ghost use Rattle.gate.specs.Profile.{profile_of};
ghost use Rattle.gate.specs.Answers.{refused};
ghost use Rattle.gate.specs.Reads.{limit, Read, Reads};
ghost use Rattle.finding.specs.internal.Notes.{cleared};
ghost use Rattle.reading.specs.internal.Cutting.{cut_out};
ghost use Rattle.reading.specs.internal.Settling.{refused_by, uncut_refused, UncutWithin};

use crate::cutting::{Left, Uncut};
use crate::judging::{Records, State};
use crate::{between, cutting, judging, settling};
use elements::layout::Parts;
use elements::segment;
use elements::verdict::{Fault, Reason};
use finding::lists::LISTS;
use finding::notes;
use gate::answer::{Answer, Refusal};
use gate::how::How;
use numbering::next;
use rows::list::ENTRIES;
use std::ops::ControlFlow;

// The longest input.
pub const LIMIT: usize = 1048576;

// The separators serve no reading.
const UNFIT: Refusal = Refusal {
    reason: Reason::UnfitSeparators,
    segment: 0,
    byte: 0,
    element: 0,
};

// The input is too long.
const TOO_LONG: Refusal = Refusal {
    reason: Reason::TooLong,
    segment: 0,
    byte: 0,
    element: 0,
};

// How a reading ended: the answer, and how many levels have a record.
#[derive(Clone, Copy, Drop)]
struct Ended {
    answer: Answer,
    levels: usize,
}

// A refusal behind `count` segments.
fn refused(fault: Fault, count: usize, at: usize) -> Answer
    requires { count ≤ 9000000000000000000 }
    ensures { result ≡ refused fault.reason (count + 1) at fault.element }
{
    Err(Refusal {
        reason: fault.reason,
        segment: count + 1,
        byte: at,
        element: fault.element,
    })
}

// Rule 5 broken by the segment from `at` to `end`, behind `count` segments: the answer with its element.
fn bad_bytes(s: &[u8], how: How, at: usize, end: usize, count: usize) -> Answer
    requires at_le_end { at ≤ end }
    requires end_in_bounds { end ≤ length s.now }
    requires count_bound { count ≤ 9000000000000000000 }
    ensures { result ≡ refused_by (first_broken (data_checks (plain_view how.separators (cut_out s.now at end)))) count at }
{
    match segment::byte_verdict(&s[at..end], how.separators) {
        Err(fault) => refused(fault, count, at),
        Ok(()) => refused(Reason::BadByte.at_element(0), count, at),
    }
}

// The refusal where no segment was cut at `at`, behind `count` segments.
// Not inlined: it is seldom asked, and the reader's loop keeps more in registers without it.
#[inline(never)]
fn uncut_refused(s: &[u8], how: How, uncut: Uncut, at: usize, count: usize) -> Answer
    requires within { UncutWithin s.now at uncut }
    requires count_bound { count ≤ 9000000000000000000 }
    ensures { result ≡ uncut_refused how s.now at count uncut }
{
    match uncut {
        Uncut::Open => refused(Reason::Unended.at_element(0), count, at),
        Uncut::Bad(end) => bad_bytes(s, how, at, end, count),
        Uncut::Broken(element) => refused(Reason::Unfit.at_element(element), count, at),
    }
}

// Reads on with fit separators from the start of bytes that are not too long. The level records have notes afterwards.
// Always inlined: its tables then stand at known places.
#[inline(always)]
fn read_on(
    s: &[u8],
    how: How,
    specials: &[bool; 256],
    table: &[u8; ENTRIES],
    segments: &mut [u64],
    levels: &mut [u64],
) -> Ended
    requires fitted { Fitted how.separators }
    requires s_len_bound { length s.now ≤ limit }
    requires special_table { SpecialTable how.separators specials.now }
    requires next_table { NextTable table.now }
    ensures { Read (profile_of how) how s.now (record { segments = segments.old; levels = levels.old }) result.answer
        (record { segments = segments.new; levels = cleared result.levels levels.new }) }
{
    let mut lasts: [u32; LISTS] = [0; LISTS];
    let mut queue: [usize; 72] = [0; 72];
    let mut starts: [usize; 33] = [0; 33];
    let mut behind: usize = 0;
    let mut left = Left::NOTHING;
    let mut state = State::START;
    loop {
        let onward = between::next_start(s, how, behind, left);
        let at = onward.at;
        let cut = match cutting::next_segment(
            s,
            specials,
            how.separators,
            onward,
            &mut queue,
            &mut starts,
        ) {
            Ok(cut) => cut,
            Err(uncut) => {
                return Ended {
                    answer: uncut_refused(s, how, uncut, at, state.count),
                    levels: state.levels,
                };
            }
        };
        let layout = cut.layout;
        let parts = Parts {
            bytes: s,
            starts: &starts,
            layout,
        };
        let records = Records {
            segments,
            levels,
            lasts: &lasts,
        };
        let judged = judging::judge(how, table, parts, state, records);
        match settling::settle(judged, layout, state, segments, levels, &mut lasts) {
            ControlFlow::Break(answer) => {
                return Ended {
                    answer,
                    levels: state.levels,
                };
            }
            ControlFlow::Continue(next) => {
                state = next;
                behind = layout.end + 1;
                left = cut.left;
            }
        }
    }
}

// Reads one transaction from the start of the bytes. The answer, the records in both lent tables: four numbers a segment (start, length,
// row, level) and four a level (segment, parent's level, depth, code).
#[tactic(auto, using(crate::proofs::reader::FirstTests::unfit_answered, crate::proofs::reader::FirstTests::long_answered))]
pub fn read(s: &[u8], how: How, segments: &mut [u64], levels: &mut [u64]) -> Answer
    ensures { Reads how s.now (record { segments = segments.old; levels = levels.old }) result
        (record { segments = segments.new; levels = levels.new }) }
{
    if !how.separators.fit() {
        return Err(UNFIT);
    }
    if LIMIT < s.len() {
        return Err(TOO_LONG);
    }
    let mut specials: [bool; 256] = [false; 256];
    cutting::set_special(&mut specials, how.separators);
    let table = next::next_table();
    let ended = read_on(s, how, &specials, &table, segments, levels);
    notes::clear(levels, ended.levels);
    ended.answer
}
