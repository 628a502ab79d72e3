ghost use Rattle.std.specs.Prelude.{◌≡◌, [], IfOk};
ghost use Rattle.clause_store.specs.Refusals.{FitsExactly};
ghost use Rattle.propagator.specs.States.{state_of};

use super::Propagator;
use books::ClauseBook;
use clause_store::{ClauseStore, OpenError};
use propagation::settle;
use std::alloc::Global;
use trail::Trail;

impl Propagator {
    // The propagator of the clauses of a book, where they are fit for so many values, with no decision.
    pub fn open<B: ClauseBook>(heap: Global, book: &B, values: u32) -> Result<Propagator, OpenError>
        ensures fit { FitsExactly values (B.clauses book.now) result }
        ensures state { IfOk result (λ p. state_of p ≡ record { values = values; clauses = B.clauses book.now; decisions = [] }) }
    {
        let store = ClauseStore::read(heap, book, values)?;
        let mut trail = Trail::new(heap, values as usize)?;
        let decisions = Vec::with_capacity(heap, values as usize)?;
        let clashed = settle(&store, &mut trail).is_err();
        Ok(Propagator {
            store,
            trail,
            decisions,
            clashed,
        })
    }

    // The propagator of no value and no clause.
    pub fn empty(heap: Global) -> Propagator
        ensures { state_of result ≡ record { values = 0; clauses = []; decisions = [] } }
    {
        Propagator {
            store: ClauseStore::empty(heap),
            trail: Trail::empty(heap),
            decisions: Vec::new(heap),
            clashed: false,
        }
    }
}
