// What a walk answers.
ghost use Rattle.std.specs.Prelude.{◌≡◌};
ghost use Rattle.outline.specs.Walks.{number_of};

// Why levels are not listed: the answers of a walk but 0, by their numbers.
#[derive(Clone, Copy, Debug, Drop, PartialEq, Eq)]
pub enum Reason {
    // The table has not so many levels, or one is unfit.
    UnfitTable = 20,
    // The output is shorter than the count.
    ShortOutput = 21,
}

impl Reason {
    // The number of the answer.
    pub fn number(self) -> usize
        ensures { result ≡ number_of self }
    {
        self as usize
    }

    // The refusal for this reason that names the level; 0 where none is named, as callers in C are told.
    pub fn at_level(self, level: usize) -> Unlisted
        ensures { result ≡ record { reason = self; level = level } }
    {
        Unlisted {
            reason: self,
            level,
        }
    }
}

// Why, and the level that is named; 0 where none is.
#[derive(Clone, Copy, Debug, Drop, PartialEq, Eq)]
pub struct Unlisted {
    pub reason: Reason,
    pub level: usize,
}

// How many levels are listed, which is answer 0; or why none is.
pub type Walked = Result<usize, Unlisted>;
