// Runs the cases of each file that the arguments name, and prints what comes of each. A case is a header of sixteen bytes and its input:
//   0        1 a reading, 2 a rewriting, 3 a lookup, 4 a reading of a long input, 5 a number check, 6 a rewriting of a reply, 7 a walk
//   1 to 3   element, component, terminator; a lookup has no terminator, a number check and a walk have none of the three
//   4 to 6   the new set of a rewriting; how long a long input is, which goes on with bytes `~` behind its own
//   7, 9     how many numbers the segment table and the level table have, two bytes each, the lower first; of a lookup the numbers of the
//            element and of the component; of a number check the least and the most digits; of a walk the count of levels and how many
//            numbers the output has
//   11       how many bytes the output of a rewriting has, two bytes; of a reading one byte, a sum: 1 where it is strict with line ends, 2 by the
//            profile of replies
//   13       how long the input is, three bytes; the input of a walk is the level table, one byte a number, 255 standing for the largest number
//            of 64 bits
#![tactic(auto)]

mod cases;
mod header;
mod printing;

use console::files;
use std::alloc::Global;
use std::io;
use std::io::{BufWriter, Read, Write};
use std::rt::{Env, Files};

// The cases of a file, one after the other.
fn run_cases<O: Write>(out: &mut O, alloc: Global, file: &[u8]) -> io::Result<()> {
    let mut rest = file;
    while let Some((header, behind)) = rest.split_first_chunk() {
        let Some((input, others)) = behind.split_at_checked(header::three_at(header, 13)) else {
            return writeln!(out, "cut off");
        };
        cases::run(out, alloc, header, input)?;
        rest = others;
    }
    Ok(())
}

// The bytes of the file with this name, the first 65,536 where it is longer.
fn read_file<R: Files>(rt: &R, alloc: Global, name: &[u8]) -> io::Result<Vec<u8>> {
    let mut bytes = Vec::new(alloc);
    files::open(rt, name)?.take(65536).read_to_end(&mut bytes)?;
    Ok(bytes)
}

// Says on standard error that a file could not be read, and why.
fn unreadable<E: Write>(
    err: &mut E,
    alloc: Global,
    name: &[u8],
    error: &io::Error,
) -> io::Result<()> {
    let words = files::words(alloc, error)?;
    err.write_all(name)?;
    writeln!(err, ": {words}")
}

// The files in turn, up to one that cannot be read, which is said.
fn main(rt: HostRuntime) -> io::Result<()> {
    let alloc = rt.alloc();
    let mut out = BufWriter::new(alloc, rt.stdout())?;
    let mut path = [0u8; 4096];
    for k in 1..1000usize {
        let Ok(length) = rt.arg(k, &mut path) else {
            break;
        };
        let name = &path[..length];
        match read_file(&rt, alloc, name) {
            Ok(file) => {
                write!(out, "file ")?;
                out.write_all(name)?;
                writeln!(out)?;
                run_cases(&mut out, alloc, file.as_slice())?;
            }
            Err(error) => {
                unreadable(&mut rt.stderr(), alloc, name, &error)?;
                break;
            }
        }
    }
    out.flush()
}
