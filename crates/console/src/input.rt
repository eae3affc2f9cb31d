// Where a report comes from, and what can go wrong with it.
ghost use Rattle.std.specs.Prelude.{◌≡◌, ◌≤◌, length, IfOk, IfSome};
ghost use Rattle.std.specs.Io.{ReadsAtMost};
ghost use Rattle.console.specs.Sources.{IfNamed};

use crate::{files, refusing, warning};
use elements::verdict::Reason;
use gate::answer::Refusal;
use std::alloc::{AllocError, Global};
use std::env::FillError;
use std::io;
use std::io::{ErrorKind, IsTerminal, Read, Write};
use std::rt::{Env, Files};

// The system's number for a name that is too long, ENAMETOOLONG.
const NAME_TOO_LONG: i32 = 36;

// The refusal of a report that is longer than a program reads.
const TOO_LONG: Refusal = Refusal {
    reason: Reason::TooLong,
    segment: 0,
    byte: 0,
    element: 0,
};

// What the first argument names: standard input, or a file, with its name.
#[derive(Drop)]
pub enum Source<'a, F> {
    Standard,
    File { file: F, name: &'a [u8] },
}

// Says that the input could not be read, and why, in the system's own words.
fn unreadable<E: Write>(
    err: &mut E,
    alloc: Global,
    name: &[u8],
    error: &io::Error,
) -> Result<(), AllocError> {
    let words = files::words(alloc, error)?;
    warning::warn(err, name, words);
    Ok(())
}

// Fills the buffer from its front until it is full or the input ends, and says how many bytes that are.
fn read_full<I: Read>(input: &mut I, buffer: &mut [u8]) -> io::Result<usize>
    ensures { ReadsAtMost result buffer.new }
{
    let mut done = 0;
    // It counts up to a bound so that it ends, whatever the input gives; what is read goes straight into the lent buffer.
    'filling: for _ in 0..u64::MAX {
        if done == buffer.len() {
            break;
        }
        match input.read(&mut buffer[done..]) {
            Ok(0) => break,
            Ok(n) => done += n,
            Err(e) if e.kind() == ErrorKind::Interrupted => {}
            Err(e) => return Err(e),
        }
    }
    Ok(done)
}

// Whether the input has a byte more. A terminal is not asked again: it would wait for a second end.
fn beyond<I: Read + IsTerminal>(input: &mut I) -> io::Result<bool> {
    if input.is_terminal() {
        return Ok(false);
    }
    let mut more = [0u8; 1];
    let count = read_full(input, &mut more)?;
    Ok(count == 1)
}

// Opens what the first argument names, whose bytes are put at the front of the space; standard input where there is none or where it is `-`.
// None where it cannot be opened, which is said.
pub fn open<'a, R: Env + Files, E: Write>(
    rt: &R,
    err: &mut E,
    alloc: Global,
    space: &'a mut [u8],
) -> Result<Option<Source<'a, R::File>>, AllocError>
    ensures { IfOk result (λ found. IfSome found (λ source. IfNamed source (λ name. length name ≤ length space.old))) }
{
    match rt.arg(1, space) {
        Ok(len) => open_named(rt, err, alloc, &space[..len]),
        Err(FillError::NotPresent) => Ok(Some(Source::Standard)),
        Err(FillError::TooLong) => {
            let error = io::Error::from_raw_os_error(NAME_TOO_LONG);
            unreadable(err, alloc, b"the name", &error)?;
            Ok(None)
        }
    }
}

// Opens what this name stands for, where that can be opened, and says so where it cannot.
fn open_named<'a, R: Files, E: Write>(
    rt: &R,
    err: &mut E,
    alloc: Global,
    name: &'a [u8],
) -> Result<Option<Source<'a, R::File>>, AllocError>
    ensures { IfOk result (λ found. IfSome found (λ source. IfNamed source (λ given. given ≡ name.now))) }
{
    if name == b"-".as_slice() {
        return Ok(Some(Source::Standard));
    }
    match files::open(rt, name) {
        Ok(file) => Ok(Some(Source::File { file, name })),
        Err(error) => {
            unreadable(err, alloc, name, &error)?;
            Ok(None)
        }
    }
}

// Puts all that the input gives at the front of the buffer: how many bytes that are, or nothing where there are more than it holds.
fn take_in<I: Read + IsTerminal>(input: &mut I, buffer: &mut [u8]) -> io::Result<Option<usize>>
    ensures { IfOk result (λ found. IfSome found (λ len. len ≤ length buffer.new)) }
{
    let len = read_full(input, buffer)?;
    if len == buffer.len() && beyond(input)? {
        return Ok(None);
    }
    Ok(Some(len))
}

// Fills the buffer with what the input gives, and says how many bytes that are. None where there is nothing to judge: where the input cannot
// be read, which is said, and where there are more bytes than the buffer holds, which is refused.
pub fn fill<I: Read + IsTerminal, O: Write, E: Write>(
    input: &mut I,
    out: &mut O,
    err: &mut E,
    alloc: Global,
    name: &[u8],
    buffer: &mut [u8],
) -> io::Result<Option<usize>>
    ensures { IfOk result (λ filled. IfSome filled (λ len. len ≤ length buffer.new)) }
{
    match take_in(input, buffer) {
        Ok(Some(len)) => Ok(Some(len)),
        Ok(None) => {
            refusing::refuse(out, err, buffer, name, TOO_LONG)?;
            Ok(None)
        }
        Err(error) => {
            unreadable(err, alloc, name, &error)?;
            Ok(None)
        }
    }
}
