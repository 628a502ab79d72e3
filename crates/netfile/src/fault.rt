ghost use Rattle.std.specs.Prelude.{◌≡◌, Some};
ghost use Rattle.netfile.specs.Faults.{fault_in};
ghost use Rattle.netfile.specs.Texts.{fault_text};

use network::Refusal;
use std::error::Error;
use std::fmt;

// Where a fault was found: in the bytes, in a record by itself, or in what the records say together.
#[derive(Clone, Copy, Debug, PartialEq, Eq)]
pub enum Layer {
    Byte,
    Record,
    Network,
}

impl Layer {
    // A fault that this layer finds.
    pub(crate) fn fault(self, place: usize, refusal: Refusal) -> Fault
        ensures { result ≡ fault_in self place refusal }
    {
        Fault {
            refusal,
            layer: self,
            place,
        }
    }
}

// Why a file is refused, which layer found it, and where.
#[derive(Clone, Copy, Debug, PartialEq, Eq)]
pub struct Fault {
    pub refusal: Refusal,
    pub layer: Layer,
    pub place: usize,
}

impl fmt::Display for Fault {
    ghost output = { λ fault. Some (fault_text fault) };

    fn fmt<W: fmt::Write>(&self, f: &mut fmt::Formatter<W>) -> fmt::Result {
        write!(f, "refused {} at {}", self.refusal.number(), self.place)
    }
}

impl Error for Fault {}
