// The laws of unit propagation.
ghost use Rattle.std.specs.Prelude.{◌≡◌, ◌*◌};
ghost use Rattle.theory.specs.Laws.{RoundsSuffice, ClashIsOpposites, OrderIsUnseen, StrikesExactly, ClashesExactly};

use crate::Encoding;

// How many rounds of unit propagation compute a reached set over so many values.
pub fn rounds_needed(values: u32) -> u64
    ensures value { result ≡ 2 * values }
    ensures law { RoundsSuffice values result }
    ensures clash { ClashIsOpposites }
    ensures order { OrderIsUnseen }
{
    2 * values as u64
}

// The encoding over which unit propagation strikes exactly what arc consistency strikes.
pub fn arc_consistent() -> Encoding
    ensures strikes { StrikesExactly result }
    ensures clashes { ClashesExactly result }
{
    Encoding::Support
}
