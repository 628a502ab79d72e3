ghost use Rattle.std.specs.Prelude.{◌≡◌, ℕ, ◌+◌, ◌*◌, ◌<◌, length, IfOk, slice_index, vec_len};
ghost use Rattle.std.specs.List.{sum_by};
ghost use Rattle.theory.specs.Literals.{Within};
ghost use Rattle.books.specs.Stored.{row};
ghost use Rattle.clause_store.specs.Storage.{flat_of, held_of};
ghost use Rattle.clause_store.specs.Index.{Indexes, times};

use crate::flat::FlatClauses;
use crate::holders::Holders;
use literals::Literal;
use std::alloc::{AllocError, Global};

// How many places of a row each literal of so many values has.
fn occurrences(heap: Global, literals: &[Literal], values: u32) -> Result<Vec<usize>, AllocError>
    requires { (k : ℕ) → k < length literals.now → slice_index literals.now k < 2 * values }
    ensures long { IfOk result (λ v. vec_len v ≡ 2 * values) }
    ensures counts { IfOk result (λ v. (l : ℕ) → l < 2 * values → slice_index v.items l ≡ times literals.now l) }
    ensures total { IfOk result (λ v. sum_by (λ n. n) v.items ≡ length literals.now) }
{
    let mut counts = vec![in heap; 0usize; 2 * values as usize]?;
    for literal in literals {
        counts[literal.index()] += 1;
    }
    Ok(counts)
}

// For each literal of so many values the numbers of the clauses that hold it.
pub(crate) fn index(heap: Global, clauses: &FlatClauses, values: u32) -> Result<Holders, AllocError>
    requires { Within values (flat_of clauses.now) }
    ensures wide { IfOk result (λ h. vec_len h.ends ≡ 2 * values) }
    ensures exact { IfOk result (λ h. Indexes (flat_of clauses.now) (held_of h)) }
    ensures full { IfOk result (λ h. (l : ℕ) → l < 2 * values → slice_index h.ends.items l ≡ slice_index h.starts.items (l + 1)) }
    ensures whole { IfOk result (λ h. vec_len h.row ≡ length (row (flat_of clauses.now))) }
{
    let counts = occurrences(heap, &clauses.literals, values)?;
    let mut holders = Holders::with_room(heap, &counts)?;
    for i in 0..clauses.count() {
        holders.add(clauses.clause(i), i);
    }
    Ok(holders)
}
