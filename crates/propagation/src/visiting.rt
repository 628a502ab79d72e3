ghost use Rattle.std.specs.Prelude.{◌≡◌, ℕ, ◌*◌, ◌<◌, List, length, OnOk, OnErr};
ghost use Rattle.theory.specs.Lists.{◌∈◌};
ghost use Rattle.clause_store.specs.Contents.{clauses_of, clause_of};
ghost use Rattle.trail.specs.Parts.{literals_of, values_of};
ghost use Rattle.propagation.specs.Reaches.{Clash};
ghost use Rattle.propagation.specs.Finds.{Still};
ghost use Rattle.propagation.specs.Queue.{Grew, Done};

use crate::Conflict;
use crate::scanning::scan;
use clause_store::ClauseStore;
use literals::Literal;
use trail::Trail;

// Store and trail stay two parameters: a loop walks a list that the store lends while the trail grows, so inside it no method of a struct of
// both could be called; and of two references in a struct each method has to say that they stay the same.
// Adds the literal that clause i forces.
pub(crate) fn visit(store: &ClauseStore, trail: &mut Trail, i: usize) -> Result<(), Conflict>
    requires sized { store.now.values ≡ values_of trail.old }
    requires within { i < length (clauses_of store.now) }
    ensures many { values_of trail.new ≡ values_of trail.old }
    ensures grew { Grew (clauses_of store.now) (literals_of trail.old) (literals_of trail.new) }
    ensures calm { OnOk result (Still (literals_of trail.new) (clause_of store.now i)) }
    ensures clash { OnErr result (Clash (clauses_of store.now) (literals_of trail.old)) }
{
    if let Some(literal) = scan(trail, store.clause(i))? {
        trail.push(literal);
    }
    Ok(())
}

// Visits each clause that holds a literal, up to a conflict.
pub(crate) fn sweep(
    store: &ClauseStore,
    trail: &mut Trail,
    literal: Literal,
) -> Result<(), Conflict>
    requires sized { store.now.values ≡ values_of trail.old }
    ensures many { values_of trail.new ≡ values_of trail.old }
    ensures grew { Grew (clauses_of store.now) (literals_of trail.old) (literals_of trail.new) }
    ensures calm { OnOk result ((c : List ℕ) → c ∈ clauses_of store.now → literal ∈ c → Done (literals_of trail.new) (length (literals_of trail.old)) c) }
    ensures clash { OnErr result (Clash (clauses_of store.now) (literals_of trail.old)) }
{
    // apart from `visit_all`: this promises that the clauses are settled that hold the literal, and that of all of them
    for i in store.holding(literal) {
        visit(store, trail, *i)?;
    }
    Ok(())
}

// Visits every clause, up to a conflict.
pub(crate) fn visit_all(store: &ClauseStore, trail: &mut Trail) -> Result<(), Conflict>
    requires sized { store.now.values ≡ values_of trail.old }
    ensures many { values_of trail.new ≡ values_of trail.old }
    ensures grew { Grew (clauses_of store.now) (literals_of trail.old) (literals_of trail.new) }
    ensures calm { OnOk result ((c : List ℕ) → c ∈ clauses_of store.now → Done (literals_of trail.new) 0 c) }
    ensures clash { OnErr result (Clash (clauses_of store.now) (literals_of trail.old)) }
{
    // by number, so that this and `sweep`, which has numbers alone, visit alike
    for i in 0..store.count() {
        visit(store, trail, i)?;
    }
    Ok(())
}
