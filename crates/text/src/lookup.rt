// Looking up a part of a segment by two numbers, the element's and the component's: the part itself, and where it stands.
ghost use Rattle.std.specs.Prelude.{◌≡◌, ◌+◌, ◌-◌, ◌≤◌, length};
ghost use Rattle.text.specs.Lookup.{span_within, element_span, attached_from, part_span, part_of, PartAt};
ghost use Rattle.text.specs.internal.Spans.{piece_span, bin_span, only_span};

use crate::separators::Separators;
use crate::{bin, search};

#[derive(Clone, Copy, Debug, PartialEq, Eq, Drop)]
pub struct Span {
    pub start: usize,
    pub len: usize,
}

// Where piece number n stands, the first one having the number `first`; past the last, the empty part at the end.
fn piece_span(s: &[u8], separator: u8, first: usize, n: usize) -> Span
    ensures { result ≡ piece_span separator s.now (n - first) }
{
    let mut start = 0;
    'pieces: for _ in first..n {
        let Some(end) = search::find(s, start, separator) else {
            return Span {
                start: s.len(),
                len: 0,
            };
        };
        start = end + 1;
    }
    let end = search::find(s, start, separator).unwrap_or(s.len());
    Span {
        start,
        len: end - start,
    }
}

// Where an element of a whole BIN stands, whose BIN02 starts at `attached`.
fn bin_span(segment: &[u8], attached: usize, number: usize) -> Span
    requires le_attached { 6 ≤ attached }
    requires attached_in_bounds { attached ≤ length segment.now }
    ensures { result ≡ bin_span attached (length segment.now) number }
{
    match number {
        0 => Span { start: 0, len: 3 },
        1 => Span {
            start: 4,
            len: attached - 5,
        },
        2 => Span {
            start: attached,
            len: segment.len() - attached,
        },
        _ => Span {
            start: segment.len(),
            len: 0,
        },
    }
}

// Where an element of the segment stands, 0 being the tag; `attached` is where its BIN02 starts, if it is a whole BIN.
fn element_span(segment: &[u8], attached: usize, separator: u8, number: usize) -> Span
    requires { attached ≡ attached_from separator segment.now }
    ensures { result ≡ element_span separator segment.now number }
{
    if segment.len() <= attached {
        return piece_span(segment, separator, 0, number);
    }
    bin_span(segment, attached, number)
}

// Where a component stands of the element at `whole`, which is one component.
#[tactic(auto, unfolding(crate::specs::internal::Spans::only_span))]
fn only_span(segment: &[u8], whole: Span, part: usize) -> Span
    requires { whole.start + whole.len ≤ length segment.now }
    ensures { result ≡ only_span whole part }
{
    if part <= 1 {
        return whole;
    }
    let start = whole.start + whole.len;
    Span { start, len: 0 }
}

// Where a component stands of the element at `whole`, which is cut at the separator.
fn component_span(segment: &[u8], whole: Span, separator: u8, part: usize) -> Span
    requires { whole.start + whole.len ≤ length segment.now }
    ensures { result ≡ span_within whole (piece_span separator (part_of segment.now whole) (part - 1)) }
{
    let from = whole.start;
    let to = from + whole.len;
    let within = piece_span(&segment[from..to], separator, 1, part);
    let start = from + within.start;
    Span {
        start,
        len: within.len,
    }
}

// Where a part of the segment stands: of the element with that number, 0 being the tag, the component with the number `part`, from 1; part 0
// is the whole element.
#[tactic(auto, using(crate::proofs::Parts::span_whole, crate::proofs::Parts::span_attached, crate::proofs::BinSpans::attached_most))]
pub fn part_span(segment: &[u8], separators: Separators, number: usize, part: usize) -> Span
    ensures { result ≡ part_span separators segment.now number part }
{
    let attached = bin::attached_from(segment, separators.element);
    let whole = element_span(segment, attached, separators.element, number);
    if part == 0 {
        return whole;
    }
    if attached < segment.len() {
        return only_span(segment, whole, part);
    }
    component_span(segment, whole, separators.component, part)
}

// The part of the segment that the span names.
fn part_at<'a>(segment: &'a [u8], span: Span) -> &'a [u8]
    requires { span.start + span.len ≤ length segment.now }
    ensures { PartAt segment.entry result span }
{
    let from = span.start;
    let to = from + span.len;
    &segment[from..to]
}

// The part itself.
pub fn lookup<'a>(segment: &'a [u8], separators: Separators, number: usize, part: usize) -> &'a [u8]
    ensures { PartAt segment.entry result (part_span separators segment.now number part) }
{
    let span = part_span(segment, separators, number, part);
    part_at(segment, span)
}
