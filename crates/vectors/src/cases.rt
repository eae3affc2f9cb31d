// A case of each kind.
ghost use Rattle.std.specs.Prelude.{◌<◌};

use crate::header::{Header, lines, profile, separators_at, three_at, two_at};
use crate::printing::{list, print_answer, print_number, print_span, print_walked};
use gate::how::How;
use outline::walking;
use rows::profile::ProfileName;
use std::alloc::Global;
use std::io::Write;
use std::{array, io};
use text::lookup;
use types::numbers;

// The most bytes of a long input: one more than a reading takes.
const LONGEST: usize = 1_048_577;

// A table before a case: numbers from this one on.
fn lent(first: u64) -> [u64; 120]
    requires { first < 1000000 }
{
    array::from_fn(|i| first + i as u64)
}

// An output before a case.
fn lent_output() -> [u8; 400] {
    array::from_fn(|i| ((i * 7 + 3) % 256) as u8)
}

// A reading, with tables of the sizes that the header has: the answer, and the tables afterwards.
fn read_case<O: Write>(out: &mut O, header: &Header, input: &[u8]) -> io::Result<()> {
    let how = How {
        separators: separators_at(header, 1),
        lines: lines(header),
        profile: profile(header),
    };
    let mut segments = lent(700000);
    let mut levels = lent(800000);
    let segments = &mut segments[..two_at(header, 7).min(120)];
    let levels = &mut levels[..two_at(header, 9).min(120)];
    let answer = reading::reading::read(input, how, segments, levels);
    print_answer(out, answer)?;
    list(out, "segments", segments)?;
    list(out, "levels", levels)
}

// A reading of an input that is as long as the header says: its own bytes, where they fit, and `~` behind them.
fn long_case<O: Write>(
    out: &mut O,
    alloc: Global,
    header: &Header,
    input: &[u8],
) -> io::Result<()> {
    let mut bytes = vec![in alloc; b'~'; three_at(header, 4).min(LONGEST)]?;
    if let Some(start) = bytes.as_mut_slice().get_mut(..input.len()) {
        start.copy_from_slice(input);
    }
    read_case(out, header, bytes.as_slice())
}

// A rewriting by the profile, with tables and an output of the sizes that the header has: the answer, and these afterwards.
fn rewrite_case<O: Write>(
    out: &mut O,
    header: &Header,
    input: &[u8],
    profile: ProfileName,
) -> io::Result<()> {
    let old = separators_at(header, 1);
    let new = separators_at(header, 4);
    let mut segments = lent(700000);
    let mut levels = lent(800000);
    let mut output = lent_output();
    let segments = &mut segments[..two_at(header, 7).min(120)];
    let levels = &mut levels[..two_at(header, 9).min(120)];
    let output = &mut output[..two_at(header, 11).min(400)];
    let answer = rewriting::rewriting::rewrite(input, profile, old, new, segments, levels, output);
    print_answer(out, answer)?;
    list(out, "segments", segments)?;
    list(out, "levels", levels)?;
    list(out, "output", output)
}

// A lookup of the two numbers that the header has.
fn lookup_case<O: Write>(out: &mut O, header: &Header, segment: &[u8]) -> io::Result<()> {
    let separators = separators_at(header, 1);
    let number = two_at(header, 7);
    let part = two_at(header, 9);
    print_span(out, lookup::part_span(segment, separators, number, part))
}

// A number check, with the least and the most digits that the header has.
fn number_case<O: Write>(out: &mut O, header: &Header, text: &[u8]) -> io::Result<()> {
    let checked = numbers::check_number(text, two_at(header, 7), two_at(header, 9));
    print_number(out, checked)
}

// The number that a byte of a level table stands for.
fn table_number(byte: u8) -> u64 {
    match byte {
        255 => u64::MAX,
        _ => u64::from(byte),
    }
}

// A walk, with the count and an output of the size that the header has: the answer, and the output afterwards.
fn walk_case<O: Write>(out: &mut O, header: &Header, input: &[u8]) -> io::Result<()> {
    let count = two_at(header, 7);
    let mut levels = [0u64; 120];
    for (number, byte) in levels.iter_mut().zip(input) {
        *number = table_number(*byte);
    }
    let mut order = lent(900000);
    let levels = &levels[..input.len().min(120)];
    let order = &mut order[..two_at(header, 9).min(120)];
    print_walked(out, walking::walk(levels, count, order))?;
    list(out, "order", order)
}

// One case. The kinds are numbers of the file's format, which no other place reads.
pub(crate) fn run<O: Write>(
    out: &mut O,
    alloc: Global,
    header: &Header,
    input: &[u8],
) -> io::Result<()> {
    match header[0] {
        1 => read_case(out, header, input),
        2 => rewrite_case(out, header, input, ProfileName::Report),
        3 => lookup_case(out, header, input),
        4 => long_case(out, alloc, header, input),
        5 => number_case(out, header, input),
        6 => rewrite_case(out, header, input, ProfileName::Reply),
        7 => walk_case(out, header, input),
        _ => writeln!(out, "no such kind"),
    }
}
