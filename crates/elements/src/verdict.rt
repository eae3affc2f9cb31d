// What the rules of a segment find, and why a transaction is refused.
ghost use Rattle.std.specs.Prelude.{◌≡◌, [], ◌∷◌};
ghost use Rattle.elements.specs.Reasons.{number_of};
ghost use Rattle.elements.specs.Checks.{check, first_broken};
// Why a transaction is refused: the answers but 0, by their numbers.
#[derive(Clone, Copy, Debug, Drop, PartialEq, Eq)]
pub enum Reason {
    // A separator may not serve as one, or two are the same.
    UnfitSeparators = 1,
    // The input is longer than a reading takes.
    TooLong = 2,
    // The bytes end before the segment does.
    Unended = 3,
    // The tag is none of the list.
    UnknownTag = 4,
    // A byte is neither data nor a separator.
    BadByte = 5,
    // No element, or the last element or a last component is empty.
    BadEnd = 6,
    // No row may follow with this tag.
    NoRow = 7,
    // A mandatory element is missing.
    Missing = 8,
    // An element or a component too many.
    TooMany = 9,
    // An element's type or length does not fit.
    Unfit = 10,
    // A note on elements that belong together is broken.
    BrokenNote = 11,
    // An earlier level has this HL01.
    RepeatedName = 12,
    // No earlier level has the HL01 that HL02 names.
    UnknownParent = 13,
    // The code is unknown, or the level may not stand or hang so.
    BadCode = 14,
    // A mark does not fit.
    BadMark = 15,
    // The SE closes another transaction.
    BadClose = 16,
    // A table has no room for a record.
    NoRoom = 17,
    // A data byte equals a new separator.
    Collision = 18,
    // The output is shorter than the transaction.
    ShortOutput = 19,
    // The profile does not admit the row.
    ForeignRow = 24,
}

impl Reason {
    // The number of the answer.
    pub fn number(self) -> usize
        ensures { result ≡ number_of self }
    {
        self as usize
    }

    // The fault for this reason that names the element; 0 is the tag, or that none is named, as callers in C are told.
    pub fn at_element(self, element: usize) -> Fault
        ensures { result ≡ record { reason = self; element = element } }
    {
        Fault {
            reason: self,
            element,
        }
    }

    // The verdict of one rule: the fault for this reason that names the element, unless the rule holds.
    pub fn unless(self, holds: bool, element: usize) -> Verdict
        ensures { result ≡ first_broken (check self element holds ∷ []) }
    {
        if holds {
            return Ok(());
        }
        Err(self.at_element(element))
    }
}

// The first rule that does not hold: the answer's reason, and the element it names.
#[derive(Clone, Copy, Debug, Drop, PartialEq, Eq)]
pub struct Fault {
    pub reason: Reason,
    pub element: usize,
}

// What a group of rules says of a segment.
pub type Verdict = Result<(), Fault>;
