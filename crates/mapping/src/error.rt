ghost use Rattle.std.specs.Prelude.{◌≡◌, Some};
ghost use Rattle.mapping.specs.Numbers.{number_of, map_error_text, from_read, too_short, out_of_memory};

use netfile::ReadError;
use netfile::fault::Fault;
use page::PageRefusal;
use std::alloc::AllocError;
use std::error::Error;
use std::fmt;

// Why there is no page.
#[derive(Clone, Copy, Debug, PartialEq, Eq)]
pub enum MapError {
    // the file is refused
    Refused(Fault),
    // the buffer for the page is too short
    TooShort,
    // there is no memory
    OutOfMemory,
}

impl MapError {
    // The number that is printed: for want of memory one that no refusal has.
    pub fn number(&self) -> u8
        ensures { result ≡ number_of self.now }
    {
        // a match and no discriminants: a variant holds a value
        match self {
            MapError::Refused(fault) => fault.refusal.number(),
            MapError::TooShort => PageRefusal::TooShort.number(),
            MapError::OutOfMemory => 99,
        }
    }
}

impl fmt::Display for MapError {
    ghost output = { λ e. Some (map_error_text e) };

    fn fmt<W: fmt::Write>(&self, f: &mut fmt::Formatter<W>) -> fmt::Result {
        match self {
            MapError::Refused(fault) => write!(f, "{fault}"),
            MapError::TooShort => write!(f, "{}", PageRefusal::TooShort),
            MapError::OutOfMemory => f.write_str("out of memory"),
        }
    }
}

impl Error for MapError {}

impl From<ReadError> for MapError {
    ghost from_gives = { λ e r. r ≡ from_read e };

    fn from(e: ReadError) -> MapError {
        match e {
            ReadError::Refused(fault) => MapError::Refused(fault),
            ReadError::OutOfMemory => MapError::OutOfMemory,
        }
    }
}

impl From<PageRefusal> for MapError {
    ghost from_gives = { λ _ r. r ≡ too_short };

    fn from(_e: PageRefusal) -> MapError {
        MapError::TooShort
    }
}

// By hand, as for each error type: a derived conversion has no contract that names the variant.
impl From<AllocError> for MapError {
    ghost from_gives = { λ _ r. r ≡ out_of_memory };

    fn from(_e: AllocError) -> MapError {
        MapError::OutOfMemory
    }
}
