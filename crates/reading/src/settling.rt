// What a judgement does: the answer where the reading ends, else the records of the segment, stored where there is room.
ghost use Rattle.std.specs.Prelude.{◌≡◌, ◌/◌, ◌≤◌, ◌<◌, length};
ghost use Rattle.levels.specs.Widths.{segment_width};
ghost use Rattle.elements.specs.declared.verdict.Reason.TheVariants.{NoRoom};
ghost use Rattle.reading.specs.internal.Settling.{state_after, refused_at, accepted_at, InRoom, SettlesBy, SettlesOther, SettlesLevel, SettlesLast};

use crate::judging::{Judgement, State};
use crate::storing;
use crate::storing::NewLevel;
use elements::layout::Layout;
use elements::verdict::{Fault, Reason};
use finding::lists::LISTS;
use gate::answer::{Accepted, Answer, Refusal};
use std::ops::ControlFlow;

// What became of the next segment: the reading ends with an answer, or the reader goes on and carries this.
pub(crate) type Step = ControlFlow<Answer, State>;

// What the reader carries after one segment more.
fn after(state: State, row: u8, levels: usize) -> State
    requires { state.count < 9000000000000000000 }
    ensures { result ≡ state_after state row levels }
{
    State {
        count: state.count + 1,
        row,
        again: row == state.row,
        levels,
    }
}

// A refusal at the segment.
fn refusal(fault: Fault, layout: Layout, state: State) -> Step
    requires { state.count < 9000000000000000000 }
    ensures { result ≡ refused_at fault.reason layout state fault.element }
{
    ControlFlow::Break(Err(Refusal {
        reason: fault.reason,
        segment: state.count + 1,
        byte: layout.at,
        element: fault.element,
    }))
}

// The refusal where a table has no room for a record of the segment.
fn no_room(layout: Layout, state: State) -> Step
    requires { state.count < 9000000000000000000 }
    ensures { result ≡ refused_at NoRoom layout state 0 }
{
    refusal(Reason::NoRoom.at_element(0), layout, state)
}

// Acceptance with this segment as the last: how many segments and levels there are, and the bytes up to its terminator.
fn acceptance(layout: Layout, state: State) -> Step
    requires end_bound { layout.end < 9000000000000000000 }
    requires count_bound { state.count < 9000000000000000000 }
    ensures { result ≡ accepted_at layout state }
{
    ControlFlow::Break(Ok(Accepted {
        segments: state.count + 1,
        levels: state.levels,
        bytes: layout.end + 1,
    }))
}

// Passes a segment that makes no level, where there is room for its record. It belongs to the latest level, if there is one.
fn pass_other(row: u8, layout: Layout, state: State, segments: &mut [u64]) -> Step
    requires at_le_end { layout.at ≤ layout.end }
    requires count_in_bounds { state.count ≤ length segments.old / segment_width }
    ensures { SettlesOther row layout state segments.old segments.new result }
{
    if !storing::segment_room(segments, state.count) {
        return no_room(layout, state);
    }
    storing::put_segment(segments, state.count, layout, row, state.levels);
    ControlFlow::Continue(after(state, row, state.levels))
}

// Passes a segment that makes a level, where there is room for both records. It belongs to the level that it makes.
fn pass_level(
    row: u8,
    level: NewLevel,
    layout: Layout,
    state: State,
    segments: &mut [u64],
    levels: &mut [u64],
    lasts: &mut [u32; LISTS],
) -> Step
    requires { InRoom segments.old levels.old layout state }
    ensures { SettlesLevel row level layout state segments.old levels.old lasts.old segments.new levels.new lasts.new result }
{
    if !storing::segment_room(segments, state.count) {
        return no_room(layout, state);
    }
    if !storing::level_room(levels, state.levels) {
        return no_room(layout, state);
    }
    let number = state.levels + 1;
    storing::put_segment(segments, state.count, layout, row, number);
    storing::put_level(levels, lasts, state.levels, state.count + 1, level);
    ControlFlow::Continue(after(state, row, number))
}

// Accepts with this segment as the last, where there is room for its record. It belongs to no level.
fn close(row: u8, layout: Layout, state: State, segments: &mut [u64]) -> Step
    requires at_le_end { layout.at ≤ layout.end }
    requires end_bound { layout.end < 1048576 }
    requires count_in_bounds { state.count ≤ length segments.old / segment_width }
    ensures { SettlesLast row layout state segments.old segments.new result }
{
    if !storing::segment_room(segments, state.count) {
        return no_room(layout, state);
    }
    storing::put_segment(segments, state.count, layout, row, 0);
    acceptance(layout, state)
}

// What the rules say of the segment that the layout names does. The tables are lent one by one: a struct that lends them could not be kept
// from segment to segment, since a judgement reads them in between.
pub(crate) fn settle(
    judged: Result<Judgement, Fault>,
    layout: Layout,
    state: State,
    segments: &mut [u64],
    levels: &mut [u64],
    lasts: &mut [u32; LISTS],
) -> Step
    requires { InRoom segments.old levels.old layout state }
    ensures { SettlesBy judged layout state segments.old levels.old lasts.old segments.new levels.new lasts.new result }
{
    match judged {
        Err(fault) => refusal(fault, layout, state),
        Ok(Judgement::Other(row)) => pass_other(row, layout, state, segments),
        Ok(Judgement::Level { row, level }) => {
            pass_level(row, level, layout, state, segments, levels, lasts)
        }
        Ok(Judgement::Last(row)) => close(row, layout, state, segments),
    }
}
