// The segments with other separators.
ghost use Rattle.std.specs.Prelude.{◌≡◌, ◌≤◌, map, length};
ghost use Rattle.rewriting.specs.internal.Rewritable.{bytes_again, Rewritable};
ghost use Rattle.rewriting.specs.internal.Output.{put_at, stretch, byte_again};

use crate::change::Change;
use crate::table::Reading;

// What a byte becomes that does not stand in BIN02.
fn byte_again(byte: u8, change: Change) -> u8
    ensures { result ≡ byte_again change.old change.new byte }
{
    if byte == change.old.element {
        return change.new.element;
    }
    if byte == change.old.component {
        return change.new.component;
    }
    if byte == change.old.terminator {
        return change.new.terminator;
    }
    byte
}

// Writes the bytes from `from` up to `to` at the same places of the output, with the new separators for the old ones, in one loop that can take many bytes
// at once. It counts by places, since both are at the same one.
fn write_again(s: &[u8], from: usize, to: usize, change: Change, output: &mut [u8])
    requires from_le_to { from ≤ to }
    requires to_in_bounds { to ≤ length s.now }
    requires to_in_bounds_2 { to ≤ length output.old }
    ensures { output.new ≡ put_at from (map (byte_again change.old change.new) (stretch from to s.now)) output.old }
{
    for i in from..to {
        output[i] = byte_again(s[i], change);
    }
}

// Writes them as they are, place by place: a copy of the whole slice would be a call into the C library.
fn copy(s: &[u8], from: usize, to: usize, output: &mut [u8])
    requires from_le_to { from ≤ to }
    requires to_in_bounds { to ≤ length s.now }
    requires to_in_bounds_2 { to ≤ length output.old }
    ensures { output.new ≡ put_at from (stretch from to s.now) output.old }
{
    for i in from..to {
        output[i] = s[i];
    }
}

// Writes the segments of an accepted reading, each with its terminator, to the start of the output. They are the bytes that it takes, one behind the
// other, and every byte keeps its place: what stands between one BIN02 and the next is written as one run, and BIN02 as it is.
pub(crate) fn write_segments(reading: Reading, output: &mut [u8])
    requires rewritable { Rewritable reading }
    requires room { reading.accepted.bytes ≤ length output.old }
    ensures { output.new ≡ put_at 0 (bytes_again reading.entry) output.old }
{
    let mut from = 0;
    for k in 0..reading.accepted.segments {
        let attached = reading.attached(k);
        if attached.from < attached.to {
            write_again(reading.bytes, from, attached.from, reading.change, output);
            copy(reading.bytes, attached.from, attached.to, output);
            from = attached.to;
        }
    }
    write_again(
        reading.bytes,
        from,
        reading.accepted.bytes,
        reading.change,
        output,
    );
}
