ghost use Rattle.std.specs.Prelude.{◌≡◌, Some};
ghost use Rattle.theory.specs.Names.{refusal_text};
ghost use Rattle.page.specs.Refusals.{number_of};

use std::error::Error;
use std::fmt;

// Why a page was not written.
#[derive(Clone, Copy, Debug, PartialEq, Eq)]
pub enum PageRefusal {
    // there are too few bytes
    TooShort = 21,
}

impl PageRefusal {
    // The number that is printed.
    pub fn number(&self) -> u8
        ensures { result ≡ number_of self.now }
    {
        *self as u8
    }
}

// As of each refusal: one impl for all types that have a number may not be written, since `Display` is not ours.
impl fmt::Display for PageRefusal {
    ghost output = { λ refusal. Some (refusal_text (number_of refusal)) };

    fn fmt<W: fmt::Write>(&self, f: &mut fmt::Formatter<W>) -> fmt::Result {
        write!(f, "refused {}", self.number())
    }
}

impl Error for PageRefusal {}
