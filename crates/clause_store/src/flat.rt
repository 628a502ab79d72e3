ghost use Rattle.std.specs.Prelude.{◌≡◌, ℕ, ◌+◌, ◌<◌, ◌≤◌, slice_index, vec_len};
ghost use Rattle.books.specs.Stored.{row};
ghost use Rattle.clause_store.specs.Parts.{parts_of};

use literals::Literal;

mod reads;

// Clauses in one row of literals: where each starts, and behind these where the last one ends. A vector a clause would be many small
// pieces of memory, each taken and given back by itself.
#[derive(Drop)]
pub(crate) struct FlatClauses {
    pub(crate) literals: Vec<Literal>,
    pub(crate) starts: Vec<usize>,
    ghost rise: { (i : ℕ) → i + 1 < vec_len starts → slice_index starts.items i ≤ slice_index starts.items (i + 1) },
    ghost inside: { (i : ℕ) → i < vec_len starts → slice_index starts.items i ≤ vec_len literals },
    ghost whole: { literals.items ≡ row (parts_of literals.items starts.items) },
}
