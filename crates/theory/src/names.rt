// The names of encodings, sides and marks.
ghost use Rattle.std.specs.Prelude.{◌≡◌, Some, codes};
ghost use Rattle.std.specs.Result.{result_ok};
ghost use Rattle.theory.specs.Names.{encoding_named, side_name, mark_name};

use crate::{Encoding, Mark, Side};
use std::error::Error;
use std::fmt;

// The name is of no encoding.
#[derive(Clone, Copy, Debug, PartialEq, Eq)]
pub struct UnknownEncoding;

impl fmt::Display for UnknownEncoding {
    ghost output = { λ _. Some (codes "unknown encoding") };

    fn fmt<W: fmt::Write>(&self, f: &mut fmt::Formatter<W>) -> fmt::Result {
        f.write_str("unknown encoding")
    }
}

impl Error for UnknownEncoding {}

impl TryFrom<&[u8]> for Encoding {
    type Error = UnknownEncoding;

    ghost try_from_gives = { λ name r. result_ok r ≡ encoding_named name.now };

    fn try_from(name: &[u8]) -> Result<Encoding, UnknownEncoding> {
        match name {
            b"direct" => Ok(Encoding::Direct),
            b"support" => Ok(Encoding::Support),
            b"minimal" => Ok(Encoding::MinimalSupport),
            _ => Err(UnknownEncoding),
        }
    }
}

impl fmt::Display for Side {
    ghost output = { λ side. Some (side_name side) };

    fn fmt<W: fmt::Write>(&self, f: &mut fmt::Formatter<W>) -> fmt::Result {
        f.write_str(match self {
            Side::Lower => "lower",
            Side::Higher => "higher",
        })
    }
}

impl fmt::Display for Mark {
    ghost output = { λ mark. Some (mark_name mark) };

    fn fmt<W: fmt::Write>(&self, f: &mut fmt::Formatter<W>) -> fmt::Result {
        f.write_str(match self {
            Mark::In => "in",
            Mark::Out => "out",
            Mark::Open => "open",
        })
    }
}
