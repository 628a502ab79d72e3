ghost use Rattle.std.specs.Prelude.{◌≡◌, Some};
ghost use Rattle.clause_store.specs.Refusals.{out_of_memory, number_of, open_error_text};

use std::alloc::{AllocError, AllocFailed};
use std::error::Error;
use std::fmt;

// Why a clause book was not opened.
#[derive(Clone, Copy, Debug, PartialEq, Eq)]
pub enum OpenError {
    // the clauses are not fit
    Unfit,
    // there was no memory for them
    OutOfMemory,
}

impl OpenError {
    // The number that is printed: none for want of memory.
    pub fn number(&self) -> Option<u8>
        ensures { result ≡ number_of self.now }
    {
        // a match and no discriminants: one variant has no number
        match self {
            OpenError::Unfit => Some(20),
            OpenError::OutOfMemory => None,
        }
    }
}

impl fmt::Display for OpenError {
    ghost output = { λ e. Some (open_error_text e) };

    fn fmt<W: fmt::Write>(&self, f: &mut fmt::Formatter<W>) -> fmt::Result {
        match self.number() {
            Some(number) => write!(f, "refused {number}"),
            None => f.write_str("out of memory"),
        }
    }
}

impl Error for OpenError {}

// By hand, as for each error type: a derived conversion has no contract that names the variant.
impl From<AllocError> for OpenError {
    ghost from_gives = { λ _ r. r ≡ out_of_memory };

    // Memory that was refused.
    fn from(_e: AllocError) -> OpenError {
        OpenError::OutOfMemory
    }
}

impl<T: Drop> From<AllocFailed<T>> for OpenError {
    ghost from_gives = { λ _ r. r ≡ out_of_memory };

    // Memory that was refused for one more element.
    fn from(_e: AllocFailed<T>) -> OpenError {
        OpenError::OutOfMemory
    }
}
