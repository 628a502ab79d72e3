ghost use Rattle.std.specs.Prelude.{◌≡◌, ℕ, ◌*◌, ◌<◌, [], length};
ghost use Rattle.theory.specs.Lists.{has};
ghost use Rattle.clause_store.specs.Contents.{clauses_of, clause_of, holding_of};

use super::ClauseStore;
use crate::flat::FlatClauses;
use crate::holders::Holders;
use literals::Literal;
use std::alloc::Global;

impl ClauseStore {
    // A store of no clause over no value.
    pub fn empty(heap: Global) -> ClauseStore
        ensures values { result.values ≡ 0 }
        ensures clauses { clauses_of result ≡ [] }
    {
        ClauseStore {
            values: 0,
            clauses: FlatClauses::empty(heap),
            holders: Holders::empty(heap),
        }
    }

    // How many values the literals are of.
    pub fn values(&self) -> usize
        ensures { result ≡ self.now.values }
    {
        self.values as usize
    }

    // How many clauses there are.
    pub fn count(&self) -> usize
        ensures { result ≡ length (clauses_of self.now) }
    {
        self.clauses.count()
    }

    // The literals of clause i.
    pub fn clause(&self, i: usize) -> &[Literal]
        requires { i < length (clauses_of self.now) }
        ensures { result.now ≡ clause_of self.now i }
    {
        self.clauses.clause(i)
    }

    // The clauses that hold a literal, by their numbers.
    pub fn holding(&self, literal: Literal) -> &[usize]
        ensures answer { result.now ≡ holding_of self.now literal }
        ensures exact { (i : ℕ) → has result.now i ≡ has (clause_of self.now i) literal }
    {
        self.holders.of(literal)
    }
}
