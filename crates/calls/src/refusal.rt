ghost use Rattle.std.specs.Prelude.{◌≡◌, Some};
ghost use Rattle.theory.specs.Names.{refusal_text};
ghost use Rattle.calls.specs.Refusals.{number_of};

use std::error::Error;
use std::fmt;

// Why a call of a session was refused.
#[derive(Clone, Copy, Debug, PartialEq, Eq)]
pub enum CallRefusal {
    // there is no such point or value
    NoSuch = 12,
    // the value to choose is marked out
    MarkedOut = 13,
    // the value to bar is marked in
    MarkedIn = 14,
    // as many decisions stand as may stand
    TooMany = 15,
    // the session is clashed
    Clashed = 16,
    // no decision stands
    NothingToWithdraw = 17,
}

impl CallRefusal {
    // The number that is printed.
    pub fn number(&self) -> u8
        ensures { result ≡ number_of self.now }
    {
        *self as u8
    }
}

// As of each refusal: one impl for all types that have a number may not be written, since `Display` is not ours.
impl fmt::Display for CallRefusal {
    ghost output = { λ refusal. Some (refusal_text (number_of refusal)) };

    fn fmt<W: fmt::Write>(&self, f: &mut fmt::Formatter<W>) -> fmt::Result {
        write!(f, "refused {}", self.number())
    }
}

impl Error for CallRefusal {}
