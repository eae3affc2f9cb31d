// The codes of a nonconformance report's levels.
ghost use Rattle.std.specs.Prelude.{◌≡◌};
ghost use Rattle.console.specs.Codes.{letters_of, words_of};

// A code as it is printed: in the letters of HL03, and in words.
#[derive(Clone, Copy)]
pub struct Code {
    pub letters: &'static str,
    pub words: &'static str,
}

impl Code {
    // The code that has this number in a level's record.
    pub fn of(number: u64) -> Code
        ensures letters { result.letters.now ≡ letters_of number }
        ensures words { result.words.now ≡ words_of number }
    {
        let (letters, words) = match number {
            1 => ("RP", "report"),
            2 => ("I", "item"),
            3 => ("F", "component"),
            4 => ("PC", "product characteristic"),
            _ => ("SN", "serial number"),
        };
        Code { letters, words }
    }
}
