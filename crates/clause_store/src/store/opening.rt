ghost use Rattle.std.specs.Prelude.{◌≡◌, IfOk};
ghost use Rattle.clause_store.specs.Refusals.{FitsExactly};
ghost use Rattle.clause_store.specs.Contents.{clauses_of};

use super::ClauseStore;
use crate::error::OpenError;
use crate::gather::gather;
use crate::index::index;
use books::ClauseBook;
use std::alloc::Global;

impl ClauseStore {
    // A store of the clauses of a book, where they are fit for so many values.
    pub fn read<B: ClauseBook>(
        heap: Global,
        book: &B,
        values: u32,
    ) -> Result<ClauseStore, OpenError>
        ensures fit { FitsExactly values (B.clauses book.now) result }
        ensures values { IfOk result (λ s. s.values ≡ values) }
        ensures clauses { IfOk result (λ s. clauses_of s ≡ B.clauses book.now) }
    {
        let clauses = gather(heap, book, values)?;
        let holders = index(heap, &clauses, values)?;
        Ok(ClauseStore {
            values,
            clauses,
            holders,
        })
    }
}
