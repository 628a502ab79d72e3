ghost use Rattle.std.specs.Prelude.{◌≡◌, ◌*◌, vec_len};
ghost use Rattle.theory.specs.Literals.{Within};
ghost use Rattle.clause_store.specs.Storage.{flat_of, held_of};
ghost use Rattle.clause_store.specs.Index.{NoneBare, Indexes};

use crate::flat::FlatClauses;
use crate::holders::Holders;

mod opening;
mod reads;

// A list of clauses over so many values, and, for each literal, the numbers of the clauses that hold it.
#[derive(Drop)]
pub struct ClauseStore {
    values: u32,
    clauses: FlatClauses,
    holders: Holders,
    ghost within: { Within values (flat_of clauses) },
    ghost filled: { NoneBare (flat_of clauses) },
    ghost wide: { vec_len holders.ends ≡ 2 * values },
    ghost indexed: { Indexes (flat_of clauses) (held_of holders) },
}
