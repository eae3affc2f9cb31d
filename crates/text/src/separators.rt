// The three separators of a transaction, the standard set, and which sets are fit.
ghost use Rattle.std.specs.Prelude.{◌≡◌};
ghost use Rattle.text.specs.Separators.{is_digit, may_serve, fit_separators, is_separator, standard};

#[derive(Clone, Copy, Debug, PartialEq, Eq, Drop)]
pub struct Separators {
    pub element: u8,
    pub component: u8,
    pub terminator: u8,
}

impl Separators {
    pub const ELEMENT: u8 = b'*';

    pub const COMPONENT: u8 = b':';

    pub const TERMINATOR: u8 = b'~';

    // The standard set: `*`, `:` and `~`.
    pub const STANDARD: Separators = Separators {
        element: Separators::ELEMENT,
        component: Separators::COMPONENT,
        terminator: Separators::TERMINATOR,
    };

    pub fn standard() -> Separators
        ensures { result ≡ standard }
    {
        Separators::STANDARD
    }

    // Whether each of the three may serve as a separator and they differ.
    pub fn fit(self) -> bool
        ensures { result ≡ fit_separators self }
    {
        may_serve(self.element)
            & may_serve(self.component)
            & may_serve(self.terminator)
            & (self.element != self.component)
            & (self.element != self.terminator)
            & (self.component != self.terminator)
    }

    // Whether the byte is one of the three.
    #[inline]
    pub fn separates(self, byte: u8) -> bool
        ensures { result ≡ is_separator self byte }
    {
        (byte == self.element) | (byte == self.component) | (byte == self.terminator)
    }
}

// A digit.
pub fn is_digit(b: u8) -> bool
    ensures { result ≡ is_digit b }
{
    matches!(b, b'0'..=b'9')
}

// A byte 1 to 126 that is no letter, digit, space, '.' or '-'.
#[tactic(auto, unfolding(crate::specs::Separators::may_serve))]
pub fn may_serve(b: u8) -> bool
    ensures { result ≡ may_serve b }
{
    let letter = b.is_ascii_uppercase() | b.is_ascii_lowercase();
    let sign = b" .-".contains(&b);
    matches!(b, 1..=126) & !(letter | is_digit(b) | sign)
}
