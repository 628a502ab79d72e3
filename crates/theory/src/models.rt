// The laws between clauses, marks and solutions.
ghost use Rattle.theory.specs.Lists.{◌∈◌};
ghost use Rattle.theory.specs.Laws.{IsFaithful, NeverMarked, MakesTheSolution};

use crate::{Encoding, Mark};

// The encodings whose models are the network's solutions, one to one: all of them.
pub fn faithful() -> [Encoding; 3]
    ensures all { (e : Encoding) → e ∈ result }
    ensures law { (e : Encoding) → e ∈ result → IsFaithful e }
{
    [
        Encoding::Direct,
        Encoding::Support,
        Encoding::MinimalSupport,
    ]
}

// The mark that no value of a solution ever has.
pub fn never_of_a_solution() -> Mark
    ensures { NeverMarked result }
{
    Mark::Out
}

// The mark whose values make up the solution once no value is open.
pub fn of_the_solution() -> Mark
    ensures { MakesTheSolution result }
{
    Mark::In
}
