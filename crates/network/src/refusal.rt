ghost use Rattle.std.specs.Prelude.{◌≡◌, Some};
ghost use Rattle.theory.specs.Names.{refusal_text};
ghost use Rattle.network.specs.Refusals.{number_of};

use std::error::Error;
use std::fmt;

// Why a file was refused.
#[derive(Clone, Copy, Debug, PartialEq, Eq)]
pub enum Refusal {
    // the file stops inside a record, or before the end record
    Truncated = 1,
    // the kind of a record is none of those there are
    UnknownKind = 2,
    // the head's version, number of points or number of tables is out of range
    BadHead = 3,
    // a point's value count or a byte of its label is out of range
    BadPoint = 4,
    // a table's lower point is not below its higher point
    BadTable = 5,
    // a record of this kind may not come here
    Misplaced = 6,
    // a table names a point that is missing
    MissingPoint = 7,
    // a pair names a value that is missing
    MissingValue = 8,
    // a pair stands twice in one table
    RepeatedPair = 9,
    // the end record's count of pairs is wrong
    WrongCount = 10,
    // bytes follow the end record
    TrailingBytes = 11,
}

impl Refusal {
    // The number that is printed.
    pub fn number(&self) -> u8
        ensures { result ≡ number_of self.now }
    {
        *self as u8
    }
}

// As of each refusal: one impl for all types that have a number may not be written, since `Display` is not ours.
impl fmt::Display for Refusal {
    ghost output = { λ refusal. Some (refusal_text (number_of refusal)) };

    fn fmt<W: fmt::Write>(&self, f: &mut fmt::Formatter<W>) -> fmt::Result {
        write!(f, "refused {}", self.number())
    }
}

impl Error for Refusal {}
