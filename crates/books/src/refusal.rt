ghost use Rattle.std.specs.Prelude.{◌≡◌, Some};
ghost use Rattle.theory.specs.Names.{refusal_text};
ghost use Rattle.books.specs.Refusals.{number_of, halves_number_of};
ghost use Rattle.books.specs.declared.refusal.HalvesRefusal.TheVariants.{Words};

use std::error::Error;
use std::fmt;

// Why a call on words was refused.
#[derive(Clone, Copy, Debug, PartialEq, Eq)]
pub enum WordsRefusal {
    // there are too few words: this many are needed
    TooFewWords(usize),
    // the words are no stored book
    NotStored,
}

impl WordsRefusal {
    // The number that is printed.
    pub fn number(&self) -> u8
        ensures { result ≡ number_of self.now }
    {
        // a match and no discriminants: a variant holds a value
        match self {
            WordsRefusal::TooFewWords(_) => 18,
            WordsRefusal::NotStored => 19,
        }
    }
}

// As of each refusal: one impl for all types that have a number may not be written, since `Display` is not ours.
impl fmt::Display for WordsRefusal {
    ghost output = { λ r. Some (refusal_text (number_of r)) };

    fn fmt<W: fmt::Write>(&self, f: &mut fmt::Formatter<W>) -> fmt::Result {
        write!(f, "refused {}", self.number())
    }
}

impl Error for WordsRefusal {}

// Why a call on the halves of a table was refused.
#[derive(Clone, Copy, Debug, PartialEq, Eq)]
pub enum HalvesRefusal {
    // there is no such table
    NoSuch,
    // a half could not be written in its words
    Words(WordsRefusal),
}

impl HalvesRefusal {
    // The number that is printed.
    pub fn number(&self) -> u8
        ensures { result ≡ halves_number_of self.now }
    {
        // a match and no discriminants: a variant holds a value
        match self {
            HalvesRefusal::NoSuch => 12,
            HalvesRefusal::Words(refusal) => refusal.number(),
        }
    }
}

impl fmt::Display for HalvesRefusal {
    ghost output = { λ r. Some (refusal_text (halves_number_of r)) };

    fn fmt<W: fmt::Write>(&self, f: &mut fmt::Formatter<W>) -> fmt::Result {
        let number = self.number();
        write!(f, "refused {number}")
    }
}

impl Error for HalvesRefusal {}

impl From<WordsRefusal> for HalvesRefusal {
    ghost from_gives = { λ refusal r. r ≡ Words refusal };

    fn from(refusal: WordsRefusal) -> HalvesRefusal {
        HalvesRefusal::Words(refusal)
    }
}
