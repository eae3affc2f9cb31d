// The lines of an outline, on standard output.
use console::codes::Code;
use console::program::{Judged, Listing};
use levels::widths::SEGMENT_WIDTH;
use outline::walking;
use std::io;
use std::io::Write;
use text::lookup;
use text::separators::Separators;

// The most levels of a report that the program reads.
const LEVELS: usize = 200;

// Record k of a table of either kind, counted from 1.
fn record(table: &[u64], k: u64) -> Option<[u64; 4]> {
    let (records, _) = table.as_chunks();
    records.get(k.checked_sub(1)? as usize).copied()
}

// How many segments belong to the level, whose number is the last of their records.
fn belonging(segments: &[u64], level: u64) -> usize {
    segments
        .iter()
        .skip(SEGMENT_WIDTH - 1)
        .step_by(SEGMENT_WIDTH)
        .filter(|of| **of == level)
        .count()
}

// Two blanks for each level above one of this depth.
fn indent<O: Write>(out: &mut O, depth: u64) -> io::Result<()> {
    for _ in 1..depth {
        write!(out, "  ")?;
    }
    Ok(())
}

// The bytes from there, so many, where there are so many.
fn part(bytes: &[u8], start: usize, len: usize) -> &[u8] {
    bytes
        .get(start..)
        .and_then(|behind| behind.get(..len))
        .unwrap_or(&[])
}

// The HL01 of a level's segment.
fn name(segment: &[u8]) -> &[u8] {
    lookup::lookup(segment, Separators::standard(), 1, 0)
}

// The line of a level: the code in words and letters, HL01, where its HL stands, and how many segments belong to the level. A record that is not
// there has zeros.
fn line<O: Write>(out: &mut O, judged: Judged<'_>, level: u64) -> io::Result<()> {
    let [hl, _, depth, code] = record(judged.levels, level).unwrap_or([0; 4]);
    let [start, len, _, _] = record(judged.segments, hl).unwrap_or([0; 4]);
    let Code { letters, words } = Code::of(code);
    indent(out, depth)?;
    write!(out, "{words} {letters} ")?;
    out.write_all(name(part(judged.report, start as usize, len as usize)))?;
    let count = belonging(judged.segments, level);
    writeln!(out, " segment {hl} byte {start} segments {count}")
}

// A line for each level, under its parent. No walk of what an accepted report leaves is refused: the order has room for as many levels as the
// program reads.
pub(crate) struct Outline;

impl Listing for Outline {
    fn list<O: Write>(&self, out: &mut O, judged: Judged<'_>) -> io::Result<()> {
        let mut order = [0u64; LEVELS];
        if let Ok(count) = walking::walk(judged.levels, judged.accepted.levels, &mut order) {
            for level in order.iter().take(count) {
                line(out, judged, *level)?;
            }
        }
        Ok(())
    }
}
