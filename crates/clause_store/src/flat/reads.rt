ghost use Rattle.std.specs.Prelude.{◌≡◌, ◌<◌, [], length, slice_index_or};
ghost use Rattle.clause_store.specs.Storage.{flat_of};

use super::FlatClauses;
use literals::Literal;
use std::alloc::Global;

impl FlatClauses {
    // No clause.
    pub(crate) fn empty(heap: Global) -> FlatClauses
        ensures { flat_of result ≡ [] }
    {
        // no start either: a vector that holds something can be refused for want of memory
        FlatClauses {
            literals: Vec::new(heap),
            starts: Vec::new(heap),
        }
    }

    // How many clauses there are.
    pub(crate) fn count(&self) -> usize
        ensures { result ≡ length (flat_of self.now) }
    {
        self.starts.len().saturating_sub(1)
    }

    // The literals of clause i.
    pub(crate) fn clause(&self, i: usize) -> &[Literal]
        requires { i < length (flat_of self.now) }
        ensures { result.now ≡ slice_index_or (flat_of self.now) i [] }
    {
        &self.literals[self.starts[i]..self.starts[i + 1]]
    }
}
