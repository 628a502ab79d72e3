ghost use Rattle.std.specs.Prelude.{◌≡◌};
ghost use Rattle.netfile.specs.Bytes.{kind_of, known_kind, body_length};

use network::{Point, Refusal};

// The kinds of record.
#[derive(Clone, Copy, Debug, PartialEq, Eq)]
pub enum Kind {
    Head,
    Point,
    Table,
    Pair,
    End,
}

impl TryFrom<u8> for Kind {
    type Error = Refusal;

    ghost try_from_gives = { λ byte r. r ≡ known_kind (kind_of byte) };

    // The kind that a byte stands for.
    fn try_from(byte: u8) -> Result<Kind, Refusal> {
        match byte {
            1 => Ok(Kind::Head),
            2 => Ok(Kind::Point),
            3 => Ok(Kind::Table),
            4 => Ok(Kind::Pair),
            5 => Ok(Kind::End),
            _ => Err(Refusal::UnknownKind),
        }
    }
}

impl Kind {
    // How many bytes follow the byte of kind.
    pub fn body_length(self) -> usize
        ensures { result ≡ body_length self }
    {
        match self {
            Kind::Head => 3,
            Kind::Point => 9,
            Kind::Table | Kind::Pair | Kind::End => 2,
        }
    }
}

// A record that is in order by itself.
#[derive(Clone, Copy)]
pub enum Record {
    Head { points: usize, tables: usize },
    Point(Point),
    Table { low: u8, high: u8 },
    Pair { low: usize, high: usize },
    End { pairs: usize },
}

// What may come next in a file.
#[derive(Clone, Copy, Debug, PartialEq, Eq)]
pub enum Expectation {
    // the head
    Start,
    // a point
    Points,
    // the first table, or the end where no table is announced
    Tables,
    // a pair of the last table, and the next table or, after the last, the end
    Pairs,
    // nothing: the end has come
    Nothing,
}
