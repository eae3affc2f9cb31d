// An accepted reading, and the segment table that it has filled.
ghost use Rattle.std.specs.Prelude.{◌≡◌, ◌*◌, ◌<◌, length};
ghost use Rattle.levels.specs.Widths.{segment_width};
ghost use Rattle.rewriting.specs.internal.SegmentTable.{start_in, segment_in, attached_part, Names};

use crate::change::Change;
use gate::answer::Accepted;
use levels::widths::SEGMENT_WIDTH;
use text::bin;

// The bytes from one place up to another.
#[derive(Clone, Copy, Drop)]
pub(crate) struct Part {
    pub from: usize,
    pub to: usize,
}

// The bytes that were read, the records of the segments in them, the answer, and the change of separators that the segments are to get.
#[derive(Clone, Copy, Drop)]
pub(crate) struct Reading<'a> {
    pub bytes: &'a [u8],
    pub segments: &'a [u64],
    pub accepted: Accepted,
    pub change: Change,
}

impl<'a> Reading<'a> {
    // Where the segment of record k starts, from 0.
    pub(crate) fn start(self, k: usize) -> usize
        requires { k * segment_width < length self.segments.now }
        ensures { result ≡ start_in self.entry.segments.now k }
    {
        self.segments[k * SEGMENT_WIDTH] as usize
    }

    // Its bytes, without the terminator.
    pub(crate) fn segment(self, k: usize) -> &'a [u8]
        requires { Names self.bytes.now self.segments.now k }
        ensures { result.now ≡ segment_in self.entry.bytes.now self.entry.segments.now k }
    {
        let start = self.start(k);
        let end = start + self.segments[k * SEGMENT_WIDTH + 1] as usize;
        &self.bytes[start..end]
    }

    // BIN02 of a whole BIN; of any other segment nothing, at its end.
    pub(crate) fn attached(self, k: usize) -> Part
        requires { Names self.bytes.now self.segments.now k }
        ensures { result ≡ attached_part self.entry.change.old.element self.entry.bytes.now self.entry.segments.now k }
    {
        let start = self.start(k);
        let segment = self.segment(k);
        let attached = bin::attached_from(segment, self.change.old.element);
        Part {
            from: start + attached,
            to: start + segment.len(),
        }
    }
}
