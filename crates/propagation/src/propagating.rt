ghost use Rattle.std.specs.Prelude.{◌≡◌, ℕ, ◌≤◌, List, [], length, OnOk};
ghost use Rattle.theory.specs.Lists.{◌∈◌};
ghost use Rattle.theory.specs.Marks.{clashed};
ghost use Rattle.clause_store.specs.Contents.{clauses_of};
ghost use Rattle.trail.specs.Parts.{literals_of, values_of};
ghost use Rattle.propagation.specs.Reaches.{HoldsReached};
ghost use Rattle.propagation.specs.Queue.{Grew, Done};
ghost use Rattle.propagation.specs.Outcomes.{outcome};

use crate::Conflict;
use crate::visiting::{sweep, visit_all};
use clause_store::ClauseStore;
use trail::Trail;

// Adds all that the clauses force, up to a conflict, where only the trail's literals from `head` on are left to look at.
pub fn propagate(store: &ClauseStore, trail: &mut Trail, head: usize) -> Result<(), Conflict>
    requires sized { store.now.values ≡ values_of trail.old }
    requires within { head ≤ length (literals_of trail.old) }
    requires ready { (c : List ℕ) → c ∈ clauses_of store.now → Done (literals_of trail.old) head c }
    ensures many { values_of trail.new ≡ values_of trail.old }
    ensures grew { Grew (clauses_of store.now) (literals_of trail.old) (literals_of trail.new) }
    ensures answer { result ≡ outcome (clashed (clauses_of store.now) store.now.values (literals_of trail.old)) }
    ensures exact { OnOk result (HoldsReached (clauses_of store.now) store.now.values (literals_of trail.old) (literals_of trail.new)) }
{
    let mut next = head;
    // no `for`: the trail grows while it is read
    while next < trail.len() {
        let literal = trail.literal(next).opposite();
        sweep(store, trail, literal)?;
        next += 1;
    }
    Ok(())
}

// Adds to a trail with no literal all that the clauses force, up to a conflict.
pub fn settle(store: &ClauseStore, trail: &mut Trail) -> Result<(), Conflict>
    requires sized { store.now.values ≡ values_of trail.old }
    requires bare { literals_of trail.old ≡ [] }
    ensures many { values_of trail.new ≡ values_of trail.old }
    ensures grew { Grew (clauses_of store.now) [] (literals_of trail.new) }
    ensures answer { result ≡ outcome (clashed (clauses_of store.now) store.now.values []) }
    ensures exact { OnOk result (HoldsReached (clauses_of store.now) store.now.values [] (literals_of trail.new)) }
{
    visit_all(store, trail)?;
    propagate(store, trail, 0)
}
