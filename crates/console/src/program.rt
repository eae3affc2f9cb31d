// A program as a whole: it reads one report, from the file that the first argument names or from standard input, with the standard separators,
// by the profile of nonconformance reports and past line ends between segments, and lists it in its own way on standard output, or says there
// in one line why it is refused. Standard error gets a hint where the bytes show what was sent instead, and why an input could not be read;
// then nothing is on standard output.
use crate::input::Source;
use crate::{hints, input, judging};
use gate::answer::Accepted;
use std::alloc::Global;
use std::io;
use std::io::{IsTerminal, LineWriter, Read, Write};

// How many bytes a report may have.
const LONGEST: usize = 65_536;

// Room in the segment table: four numbers for each of 1,000 segments.
const SEGMENT_ROOM: usize = 4_000;

// Room in the level table: four numbers for each of 200 levels.
const LEVEL_ROOM: usize = 800;

// How many bytes the name of a file may have.
const NAME_ROOM: usize = 4_096;

// A report that is accepted, how many segments, levels and bytes it has, and the records of these.
#[derive(Clone, Copy)]
pub struct Judged<'a> {
    pub report: &'a [u8],
    pub accepted: Accepted,
    pub segments: &'a [u64],
    pub levels: &'a [u64],
}

// How a program lists an accepted report on standard output.
pub trait Listing {
    fn list<O: Write>(&self, out: &mut O, judged: Judged<'_>) -> io::Result<()>;
}

// Reads the report and prints what came of it. Room for 1,000 segments and 200 levels.
fn judge<O: Write, E: Write, L: Listing>(
    out: &mut O,
    err: &mut E,
    report: &[u8],
    name: &[u8],
    listing: &L,
) -> io::Result<()> {
    let mut segments = [0u64; SEGMENT_ROOM];
    let mut levels = [0u64; LEVEL_ROOM];
    let Some(accepted) = judging::judge(out, err, report, name, &mut segments, &mut levels)? else {
        return Ok(());
    };
    let judged = Judged {
        report,
        accepted,
        segments: &segments,
        levels: &levels,
    };
    listing.list(out, judged)?;
    hints::after_acceptance(err, report, accepted.bytes, name);
    Ok(())
}

// Judges what the input gives, at most 65,536 bytes.
fn run_on<I: Read + IsTerminal, O: Write, E: Write, L: Listing>(
    input: &mut I,
    out: &mut O,
    err: &mut E,
    alloc: Global,
    name: &[u8],
    listing: &L,
) -> io::Result<()> {
    let mut buffer = [0u8; LONGEST];
    match input::fill(input, out, err, alloc, name, &mut buffer)? {
        Some(len) => judge(out, err, &buffer[..len], name, listing),
        None => Ok(()),
    }
}

// Runs the program that lists a report so. Each line goes out once it is whole, so that a hint comes behind the line that it is about.
pub fn run<L: Listing>(rt: &HostRuntime, listing: &L) -> io::Result<()> {
    let alloc = rt.alloc();
    let mut out = LineWriter::new(alloc, rt.stdout())?;
    let mut err = rt.stderr();
    let mut space = [0u8; NAME_ROOM];
    match input::open(rt, &mut err, alloc, &mut space)? {
        Some(Source::Standard) => run_on(
            &mut rt.stdin(),
            &mut out,
            &mut err,
            alloc,
            b"standard input",
            listing,
        ),
        Some(Source::File { mut file, name }) => {
            run_on(&mut file, &mut out, &mut err, alloc, name, listing)
        }
        None => Ok(()),
    }
}
