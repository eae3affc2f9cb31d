// What comes of a case, on standard output.
use gate::answer::{Accepted, Answer, Refusal};
use outline::answer::{Unlisted, Walked};
use std::fmt::Display;
use std::io;
use std::io::Write;
use text::lookup::Span;
use types::numbers::Number;

// The numbers of a table or the bytes of an output, on one line.
pub(crate) fn list<O: Write, T: Display>(out: &mut O, name: &str, numbers: &[T]) -> io::Result<()> {
    write!(out, "{name}")?;
    for number in numbers {
        write!(out, " {number}")?;
    }
    writeln!(out)
}

// 0 with the segments, levels and bytes of an acceptance; or the number of the refusal, with the segment, the byte and the element.
pub(crate) fn print_answer<O: Write>(out: &mut O, answer: Answer) -> io::Result<()> {
    match answer {
        Ok(
            Accepted {
                segments,
                levels,
                bytes,
            },
        ) => writeln!(out, "0 {segments} {levels} {bytes}"),
        Err(
            Refusal {
                reason,
                segment,
                byte,
                element,
            },
        ) => {
            let number = reason.number();
            writeln!(out, "{number} {segment} {byte} {element}")
        }
    }
}

// 0 with how many levels are listed; or the number of the refusal, with the level.
pub(crate) fn print_walked<O: Write>(out: &mut O, walked: Walked) -> io::Result<()> {
    match walked {
        Ok(levels) => writeln!(out, "0 {levels}"),
        Err(Unlisted { reason, level }) => {
            let number = reason.number();
            writeln!(out, "{number} {level}")
        }
    }
}

pub(crate) fn print_span<O: Write>(out: &mut O, span: Span) -> io::Result<()> {
    let Span { start, len } = span;
    writeln!(out, "span {start} {len}")
}

// 1, the value, the places, the exponent, and whether one is written; zeros where the text is unfit.
pub(crate) fn print_number<O: Write>(out: &mut O, checked: Option<Number>) -> io::Result<()> {
    match checked {
        Some(
            Number {
                value,
                places,
                exponent,
            },
        ) => {
            let written = u8::from(exponent.is_some());
            let exponent = exponent.unwrap_or(0);
            writeln!(out, "number 1 {value} {places} {exponent} {written}")
        }
        None => writeln!(out, "number 0 0 0 0 0"),
    }
}
