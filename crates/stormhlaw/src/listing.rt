// The listing of an accepted report, on standard output.
use console::codes::Code;
use console::program::{Judged, Listing};
use gate::answer::Accepted;
use levels::widths::{LEVEL_WIDTH, SEGMENT_WIDTH};
use std::io;
use std::io::Write;

// A line for each segment: its number, and the numbers of its record.
fn list_segments<O: Write>(out: &mut O, segments: &[u64], count: usize) -> io::Result<()> {
    let (records, _) = segments.as_chunks::<SEGMENT_WIDTH>();
    for (number, [start, len, row, level]) in (1u64..).zip(records.iter().take(count)) {
        writeln!(out, "{number} {start} {len} {row} {level}")?;
    }
    Ok(())
}

// A line for each level: its number, and the numbers of its record, the code in letters.
fn list_levels<O: Write>(out: &mut O, levels: &[u64], count: usize) -> io::Result<()> {
    let (records, _) = levels.as_chunks::<LEVEL_WIDTH>();
    for (number, [segment, parent, depth, code]) in (1u64..).zip(records.iter().take(count)) {
        let letters = Code::of(*code).letters;
        writeln!(out, "level {number} {segment} {parent} {depth} {letters}")?;
    }
    Ok(())
}

// How many segments, levels and bytes there are, then the segments and the levels.
pub(crate) struct Tables;

impl Listing for Tables {
    fn list<O: Write>(&self, out: &mut O, judged: Judged<'_>) -> io::Result<()> {
        let Accepted {
            segments,
            levels,
            bytes,
        } = judged.accepted;
        writeln!(out, "842 segments {segments} levels {levels} bytes {bytes}")?;
        list_segments(out, judged.segments, segments)?;
        list_levels(out, judged.levels, levels)
    }
}
