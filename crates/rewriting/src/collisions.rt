// Answer 18: the first data byte that equals a new separator.
ghost use Rattle.std.specs.Prelude.{◌≡◌, true};
ghost use Rattle.text.specs.Bytes.{every};
ghost use Rattle.text.specs.Separators.{Fitted};
ghost use Rattle.text.specs.View.{view_of};
ghost use Rattle.elements.specs.Checks.{first_broken};
ghost use Rattle.rewriting.specs.Rewrites.{collision_checks};
ghost use Rattle.rewriting.specs.internal.CutOff.{AsCut};
ghost use Rattle.rewriting.specs.internal.Rewritable.{first_clash, Rewritable};
ghost use Rattle.rewriting.specs.internal.QuickTest.{harmless_byte};

use crate::change::Change;
use crate::table::Reading;
use elements::verdict::{Reason, Verdict};
use text::bin;

// Where a data byte equals a new separator: the segment's number, the byte where the segment starts, and the element; the tag is element 0. So
// the definition `collision` has it.
#[derive(Clone, Copy, Drop)]
pub(crate) struct Clash {
    pub segment: usize,
    pub byte: usize,
    pub element: usize,
}

// Whether every byte is no new separator, or is an old one too. The fold always runs to the end, so that it can take many bytes at once.
fn harmless(bytes: &[u8], change: Change) -> bool
    ensures { result ≡ every (harmless_byte change.old change.new) bytes.now }
{
    bytes.iter().fold(
        true,
        |so_far, byte| so_far & (!change.new.separates(*byte) | change.old.separates(*byte)),
    )
}

// Whether so it is of all bytes of the segments but those of each BIN02: then nothing collides.
fn harmless_runs(reading: Reading) -> bool
    requires { Rewritable reading }
    ensures { result ≡ true → first_clash reading.entry ≡ None }
{
    let mut so_far = true;
    let mut from = 0;
    for k in 0..reading.accepted.segments {
        let attached = reading.attached(k);
        if attached.from < attached.to {
            so_far = so_far & harmless(&reading.bytes[from..attached.from], reading.change);
            from = attached.to;
        }
    }
    so_far & harmless(&reading.bytes[from..reading.accepted.bytes], reading.change)
}

// The first element of the segment that collides; the tag is element 0. Neither a letter nor a digit may serve as a separator, so no byte of a whole
// BIN that is looked into collides.
fn segment_collision(segment: &[u8], change: Change) -> Verdict
    requires fitted { Fitted change.new }
    requires as_cut { AsCut change.old segment.now }
    ensures { result ≡ first_broken (collision_checks change.new (view_of change.old segment.now)) }
{
    if bin::attached_from(segment, change.old.element) < segment.len() {
        return Ok(());
    }
    let mut element = 0;
    for byte in segment {
        if *byte == change.old.element {
            element += 1;
        } else if (*byte != change.old.component) & change.new.separates(*byte) {
            return Err(Reason::Collision.at_element(element));
        }
    }
    Ok(())
}

// The first segment that collides.
fn first_collision(reading: Reading) -> Option<Clash>
    requires { Rewritable reading }
    ensures { result ≡ first_clash reading.entry }
{
    for k in 0..reading.accepted.segments {
        if let Err(fault) = segment_collision(reading.segment(k), reading.change) {
            let byte = reading.start(k);
            return Some(Clash {
                segment: k + 1,
                byte,
                element: fault.element,
            });
        }
    }
    None
}

// The first collision of an accepted reading. The segments are searched only where some byte may collide, and most readings are told of at once: by all
// bytes, or by all but those of each BIN02.
pub(crate) fn find_clash(reading: Reading) -> Option<Clash>
    requires { Rewritable reading }
    ensures { result ≡ first_clash reading.entry }
{
    if harmless(&reading.bytes[..reading.accepted.bytes], reading.change)
        || harmless_runs(reading)
    {
        return None;
    }
    first_collision(reading)
}
