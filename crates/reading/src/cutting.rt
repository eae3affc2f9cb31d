// The next segment: where it ends, where its elements start, and what its bytes alone tell of it. The bytes are looked at once, 64 at a
// time: the places of the separators, and of bytes that are no data, go into a lent queue, and a segment visits only those places. A BIN is not
// searched for its terminator: its count says where that is due.
ghost use Rattle.std.specs.Prelude.{◌≡◌, ◌+◌, ◌≤◌, ◌<◌, T, length, drop, set};
ghost use Rattle.reading.specs.internal.SpecialBytes.{is_special_in, SpecialTable, Fills};
ghost use Rattle.reading.specs.internal.Queue.{bit, Indexed, Window, Ready};
ghost use Rattle.reading.specs.internal.Between.{Serves};
ghost use Rattle.reading.specs.internal.Cutting.{layout_of, Stops, CutsPlainly, CutsCounted, CutsBin, Cuts};
ghost use Rattle.text.specs.Separators.{Fitted};
ghost use Rattle.text.specs.Bin.{begins_bin};

use elements::layout::Layout;
use text::bin::Uncounted;
use text::separators::Separators;
use text::{bin, search};

// A segment that was cut, by its layout, and what is left of the queue behind it.
#[derive(Clone, Copy, Drop)]
pub(crate) struct Cut {
    pub layout: Layout,
    pub left: Left,
}

// Why no segment was cut.
#[derive(Clone, Copy, Drop)]
pub(crate) enum Uncut {
    // The bytes end before its terminator.
    Open,
    // A terminator stands at this place, and before it a byte that is neither data nor separator.
    Bad(usize),
    // A BIN is broken: the element that is at fault.
    Broken(usize),
}

// What is left of the queue: the entries from `head` up to `tail`, which are the special places from here as far as `seen`. The queue is an array
// beside it, lent down: the library has no heap.
#[derive(Clone, Copy, Drop)]
pub(crate) struct Left {
    pub head: usize,
    pub tail: usize,
    pub seen: usize,
}

impl Left {
    // Before the first index.
    pub const NOTHING: Left = Left {
        head: 0,
        tail: 0,
        seen: 0,
    };
}

// Where the next segment starts, what is left of the queue there, and whether `BIN` and the element separator begin it.
#[derive(Clone, Copy, Drop)]
pub(crate) struct Onward {
    pub at: usize,
    pub left: Left,
    pub bin: bool,
}

// The bytes from `from` to `last` get this entry.
fn fill(specials: &mut [bool; 256], from: usize, last: usize, entry: bool)
    requires specials_len { length specials.old ≡ 256 }
    requires from_le_last { from ≤ last }
    requires last_bound { last < 256 }
    ensures { Fills specials.old from last entry specials.new }
{
    specials[from..=last].fill(entry);
}

// Which bytes are special: the separators, and every byte that is no data.
pub(crate) fn set_special(specials: &mut [bool; 256], separators: Separators)
    requires { length specials.old ≡ 256 }
    ensures { SpecialTable separators specials.new }
{
    fill(specials, 0, 255, true);
    fill(specials, 32, 126, false);
    specials[separators.element as usize] = true;
    specials[separators.component as usize] = true;
    specials[separators.terminator as usize] = true;
}

// 1 for a special byte, else 0.
fn special_bit(specials: &[bool; 256], byte: u8) -> usize
    requires { length specials.now ≡ 256 }
    ensures { result ≡ bit (is_special_in specials.now byte) }
{
    specials[byte as usize] as usize
}

// Puts the special places from `from` up to `to` into the queue and answers how many. Every place is stored, and the next one takes its
// entry unless it is special: the loops neither branch nor end early.
fn index(s: &[u8], specials: &[bool; 256], from: usize, to: usize, queue: &mut [usize; 72]) -> usize
    requires to_in_bounds { to ≤ length s.now }
    requires from_le_to { from ≤ to }
    requires to_bound { to ≤ from + 64 }
    requires specials_len { length specials.now ≡ 256 }
    requires queue_len { length queue.old ≡ 72 }
    ensures { Indexed specials.now s.now from to result queue.new }
{
    let mut number: usize = 0;
    let mut i = from;
    // A loop by eights, each of which is unrolled: an iterator over chunks of eight would not have their places.
    while i + 8 <= to {
        for j in 0..8 {
            queue[number] = i + j;
            number += special_bit(specials, s[i + j]);
        }
        i += 8;
    }
    for place in i..to {
        queue[number] = place;
        number += special_bit(specials, s[place]);
    }
    number
}

// How far the next index goes: 64 bytes, or up to the end.
fn reach(seen: usize, len: usize) -> usize
    requires { seen < len }
    ensures { Window seen len result }
{
    if 64 < len - seen { seen + 64 } else { len }
}

// Keeps where an element starts: the tag, number 0, and the first 32 elements.
fn keep_start(starts: &mut [usize; 33], number: usize, place: usize)
    requires { length starts.old ≡ 33 }
    ensures { starts.new ≡ set starts.old number place }
{
    if number < 33 {
        starts[number] = place;
    }
}

// Why no segment was cut where the byte at `from` is bad: `Bad` where a terminator follows, else `Open`.
fn stop(s: &[u8], from: usize, terminator: u8) -> Uncut
    requires { from ≤ length s.now }
    ensures { Stops s.now from terminator result }
{
    match search::first_place(&s[from..], terminator) {
        Some(place) => Uncut::Bad(from + place),
        None => Uncut::Open,
    }
}

// The layout of a segment whose terminator stands at `end`. Rule 6 holds of it where it holds of the elements before the last, and of the last,
// which starts at `start`.
fn layout_of(
    at: usize,
    end: usize,
    count: usize,
    start: usize,
    behind: usize,
    ended: bool,
) -> Layout
    ensures { result ≡ layout_of at end count start behind ended }
{
    Layout {
        at,
        end,
        count,
        single: behind == at,
        ended: ended & (end != behind) & (end != start) & (count != 0),
    }
}

// The next segment from `at` on, up to its terminator. `start` is where the last element so far starts, and `behind` the place behind the last component
// separator, or `at`. An element ends badly where its end is that place; the tag, element 0, may. The inner loop uses the
// queue up, the outer one fills it anew. The queue and the starts are the reader's, so that no segment has to clear them.
fn next_plain(
    s: &[u8],
    specials: &[bool; 256],
    separators: Separators,
    at: usize,
    left: Left,
    queue: &mut [usize; 72],
    starts: &mut [usize; 33],
) -> Result<Cut, Uncut>
    requires special_table { SpecialTable separators specials.now }
    requires fitted { Fitted separators }
    requires ready { Ready specials.now s.now at queue.old left.head left.tail left.seen }
    requires starts_len { length starts.old ≡ 33 }
    ensures { CutsPlainly separators specials.now s.now at queue.new starts.new result }
{
    let mut head = left.head;
    let mut tail = left.tail;
    let mut seen = left.seen;
    let mut count: usize = 0;
    let mut ended = true;
    let mut start = at;
    let mut behind = at;
    starts[0] = at;
    loop {
        // A loop, since what is left of the queue goes on to the next segment.
        while head < tail {
            let place = queue[head];
            let byte = s[place];
            head += 1;
            if byte == separators.element {
                ended = ended & ((place != behind) | (count == 0));
                count += 1;
                start = place + 1;
                keep_start(starts, count, start);
                continue;
            }
            if byte == separators.terminator {
                let layout = layout_of(at, place, count, start, behind, ended);
                let left = Left { head, tail, seen };
                return Ok(Cut { layout, left });
            }
            if byte != separators.component {
                return Err(stop(s, place, separators.terminator));
            }
            behind = place + 1;
        }
        if s.len() <= seen {
            return Err(Uncut::Open);
        }
        let to = reach(seen, s.len());
        tail = index(s, specials, seen, to, queue);
        head = 0;
        seen = to;
    }
}

// The BIN from `at` on whose BIN02 of so many bytes starts at `attached`. None of them is looked at; the index goes on behind them.
fn next_counted(
    s: &[u8],
    terminator: u8,
    at: usize,
    number: usize,
    attached: usize,
    starts: &mut [usize; 33],
) -> Result<Cut, Uncut>
    requires starts_len { length starts.old ≡ 33 }
    requires at_bound { at + 6 ≤ attached }
    requires attached_in_bounds { attached ≤ length s.now }
    ensures { CutsCounted s.now terminator at number attached starts.old starts.new result }
{
    if s.len() - attached <= number {
        return Err(Uncut::Open);
    }
    let end = attached + number;
    if s[end] != terminator {
        return Err(Uncut::Broken(2));
    }
    starts[0] = at;
    starts[1] = at + 4;
    starts[2] = attached;
    let layout = Layout {
        at,
        end,
        count: 2,
        single: false,
        ended: true,
    };
    let left = Left {
        head: 0,
        tail: 0,
        seen: end + 1,
    };
    Ok(Cut { layout, left })
}

// The next segment from `at` on, where it begins with `BIN` and the element separator: its count, and one jump over what it counts.
fn next_bin(
    s: &[u8],
    separators: Separators,
    at: usize,
    starts: &mut [usize; 33],
) -> Result<Cut, Uncut>
    requires fitted { Fitted separators }
    requires t { T (begins_bin separators.element (drop at s.now)) }
    requires starts_len { length starts.old ≡ 33 }
    ensures { CutsBin separators s.now at starts.new result }
{
    match bin::count(s, at + 4, separators.element) {
        Ok(count) => next_counted(
            s,
            separators.terminator,
            at,
            count.number,
            count.end + 1,
            starts,
        ),
        Err(Uncounted::Open) => Err(Uncut::Open),
        Err(Uncounted::Broken) => Err(Uncut::Broken(1)),
    }
}

// The next segment from its start on.
pub(crate) fn next_segment(
    s: &[u8],
    specials: &[bool; 256],
    separators: Separators,
    onward: Onward,
    queue: &mut [usize; 72],
    starts: &mut [usize; 33],
) -> Result<Cut, Uncut>
    requires special_table { SpecialTable separators specials.now }
    requires fitted { Fitted separators }
    requires serves { Serves specials.now s.now onward.at queue.old onward.left }
    requires bin_value { onward.bin ≡ begins_bin separators.element (drop onward.at s.now) }
    requires starts_len { length starts.old ≡ 33 }
    ensures { Cuts separators specials.now s.now onward.at queue.new starts.new result }
{
    if onward.bin {
        return next_bin(s, separators, onward.at, starts);
    }
    next_plain(
        s,
        specials,
        separators,
        onward.at,
        onward.left,
        queue,
        starts,
    )
}
