// The functions that programs in C, Rust and Python call. A slice is passed as a pointer and a length, an array as a pointer; an answer
// is written as numbers into an array that the caller lends.
#![tactic(auto)]

ghost use Rattle.std.specs.Prelude.{◌≡◌};
ghost use Rattle.types.specs.Numbers.{checked};
ghost use Rattle.gate.specs.Answers.{numbers_of};
ghost use Rattle.exports.specs.Promises.{separators_of, lines_of, profile_in, how_of, tables_of, Told, ToldAgain, walk_numbers, ToldWalk, span_numbers, ToldPart, number_numbers};

use gate::answer::Answer;
use gate::how::How;
use outline::answer::Walked;
use outline::walking;
use rows::profile::ProfileName;
use text::lines::LineEnds;
use text::lookup;
use text::lookup::Span;
use text::separators::Separators;
use types::numbers;
use types::numbers::Number;

// These three separators.
fn separators_of(element: u8, component: u8, terminator: u8) -> Separators
    ensures { result ≡ separators_of element component terminator }
{
    Separators {
        element,
        component,
        terminator,
    }
}

// What the sum of flags says of line ends.
fn lines_of(how: u64) -> LineEnds
    ensures { result ≡ lines_of how }
{
    if how % 2 == 1 {
        LineEnds::Strict
    } else {
        LineEnds::Skipped
    }
}

// What the sum of flags says of the profile.
fn profile_of(how: u64) -> ProfileName
    ensures { result ≡ profile_in how }
{
    if how / 2 % 2 == 1 {
        ProfileName::Reply
    } else {
        ProfileName::Report
    }
}

// How to read, by these separators and this sum of flags.
fn how_of(element: u8, component: u8, terminator: u8, how: u64) -> How
    ensures { result ≡ how_of element component terminator how }
{
    How {
        separators: separators_of(element, component, terminator),
        lines: lines_of(how),
        profile: profile_of(how),
    }
}

// The four numbers of an answer. Functions and no `From`, here and below: neither type is this crate's.
fn four(answer: Answer) -> [u64; 4]
    ensures { result ≡ numbers_of answer }
{
    match answer {
        Ok(accepted) => [
            0,
            accepted.segments as u64,
            accepted.levels as u64,
            accepted.bytes as u64,
        ],
        Err(refusal) => [
            refusal.reason.number() as u64,
            refusal.segment as u64,
            refusal.byte as u64,
            refusal.element as u64,
        ],
    }
}

// The two numbers of a walk's answer.
fn pair(walked: Walked) -> [u64; 2]
    ensures { result ≡ walk_numbers walked }
{
    match walked {
        Ok(levels) => [0, levels as u64],
        Err(unlisted) => [unlisted.reason.number() as u64, unlisted.level as u64],
    }
}

// Start and length.
fn two(span: Span) -> [u64; 2]
    ensures { result ≡ span_numbers span }
{
    [span.start as u64, span.len as u64]
}

// 1 for a number, its value, places and exponent, and whether an exponent is written; five zeros for none.
fn five(number: Option<Number>) -> [i64; 5]
    ensures { result ≡ number_numbers number }
{
    let Some(number) = number else {
        return [0; 5];
    };
    let exponent = number.exponent;
    [
        1,
        number.value,
        i64::from(number.places),
        exponent.unwrap_or(0),
        i64::from(exponent.is_some()),
    ]
}

// Reads one transaction from the start of the input, as `reading::read` does, in the way that the sum of flags `how` names: both tables, and
// the four numbers of the answer.
#[unsafe(no_mangle)]
#[tactic(auto, using(crate::proofs::Telling::tell))]
pub extern "C" fn stormhlaw_read(
    input: &[u8],
    element: u8,
    component: u8,
    terminator: u8,
    how: u64,
    segments: &mut [u64],
    levels: &mut [u64],
    answer: &mut [u64; 4],
)
    ensures { Told (how_of element component terminator how) input.now (tables_of segments.old levels.old)
        (tables_of segments.new levels.new) answer.new }
{
    let chosen = how_of(element, component, terminator, how);
    *answer = four(reading::reading::read(input, chosen, segments, levels));
}

// Reads one transaction and writes it to the output with the new separators, as `rewriting::rewrite` does: both tables, the output, and the
// four numbers of the answer. It reads strictly, and of the sum of flags `how` it heeds the profile alone.
#[unsafe(no_mangle)]
pub extern "C" fn stormhlaw_rewrite(
    input: &[u8],
    element: u8,
    component: u8,
    terminator: u8,
    how: u64,
    new_element: u8,
    new_component: u8,
    new_terminator: u8,
    segments: &mut [u64],
    levels: &mut [u64],
    output: &mut [u8],
    answer: &mut [u64; 4],
)
    ensures { ToldAgain (profile_in how) (separators_of element component terminator) (separators_of new_element new_component new_terminator) input.now
        (tables_of segments.old levels.old) output.old
        (tables_of segments.new levels.new) output.new answer.new }
{
    let profile = profile_of(how);
    let old = separators_of(element, component, terminator);
    let new = separators_of(new_element, new_component, new_terminator);
    *answer = four(rewriting::rewriting::rewrite(
        input, profile, old, new, segments, levels, output,
    ));
}

// Lists the levels 1 to count of a level table under their parents, as `outline::walking::walk` does: the output, and the two numbers of the answer.
#[unsafe(no_mangle)]
pub extern "C" fn stormhlaw_walk(
    levels: &[u64],
    count: u64,
    output: &mut [u64],
    answer: &mut [u64; 2],
)
    ensures { ToldWalk levels.now count output.old output.new answer.new }
{
    *answer = pair(walking::walk(levels, count as usize, output));
}

// Where a part of the segment stands, start and length: of the element with that number, 0 being the tag, the component with the number
// `part`, from 1; part 0 is the whole element. A part that is not there is empty, at the end of its element, or of the segment.
#[unsafe(no_mangle)]
#[tactic(auto, using(crate::proofs::Telling::tell_part))]
pub extern "C" fn stormhlaw_lookup(
    segment: &[u8],
    element: u8,
    component: u8,
    number: u64,
    part: u64,
    span: &mut [u64; 2],
)
    ensures { ToldPart element component segment.now number part span.new }
{
    let separators = separators_of(element, component, 0);
    *span = two(lookup::part_span(segment, separators, number as usize, part as usize));
}

// The number that a text of type R writes, of up to fifteen digits: 1, value, places, exponent, and 1 where an exponent is written, else 0.
// Five zeros where the text does not fit.
#[unsafe(no_mangle)]
pub extern "C" fn stormhlaw_number(text: &[u8], number: &mut [i64; 5])
    ensures { number.new ≡ number_numbers (checked 1 15 text.now) }
{
    *number = five(numbers::check_number(text, 1, 15));
}
