// Files by their names, and what the system says where one cannot be read.
ghost use Rattle.std.specs.Prelude.{IsOk, IfOk, None, codes, string_bytes};
ghost use Rattle.std.specs.Str.{IsUtf8};
ghost use Rattle.std.specs.Str.Pattern.{FindsText};

use std::alloc::{AllocError, Global};
use std::io::ErrorKind;
use std::rt::Files;
use std::{fs, io, str};

// Opens the file that has this name.
pub fn open<R: Files>(rt: &R, name: &[u8]) -> io::Result<R::File>
    ensures { IsOk result → IsUtf8 name.now }
{
    match str::from_utf8(name) {
        Ok(path) => fs::open(rt, path),
        Err(_) => Err(io::Error::new(ErrorKind::InvalidInput, "File name not UTF-8")),
    }
}

// The system's own words for an error: std puts its number behind them.
pub fn words(alloc: Global, error: &io::Error) -> Result<String, AllocError>
    ensures { IfOk result (λ words. FindsText (codes " (os error ") (string_bytes words) None) }
{
    let mut message = format!(in alloc; "{error}")?;
    if let Some(end) = message.find(" (os error ") {
        message.truncate(end);
    }
    Ok(message)
}
