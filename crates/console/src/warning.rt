// The programs' lines on standard error, each piece a write of its own. Where one cannot be written nobody can be told: the next is tried, and
// the verdict stands all the same.
use std::fmt::Display;
use std::io::Write;

// A line about the report with this name.
pub fn warn<E: Write, T: Display + Drop>(err: &mut E, name: &[u8], text: T) {
    about(err, name);
    say(err, ": ");
    say(err, text);
    say(err, "\n");
}

// The front of such a line.
pub fn about<E: Write>(err: &mut E, name: &[u8]) {
    say(err, "stormhlaw: ");
    let _ = err.write_all(name);
}

// A piece of it.
pub fn say<E: Write, T: Display + Drop>(err: &mut E, piece: T) {
    let _ = write!(err, "{piece}");
}
