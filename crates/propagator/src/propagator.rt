ghost use Rattle.std.specs.Prelude.{◌≡◌, ◌≤◌, vec_capacity};
ghost use Rattle.clause_store.specs.Contents.{clauses_of};
ghost use Rattle.trail.specs.Parts.{literals_of, values_of};
ghost use Rattle.propagator.specs.Decisions.{literals_in, heights_in};
ghost use Rattle.propagator.specs.Standing.{Standing};

use clause_store::ClauseStore;
use trail::Trail;

mod changes;
mod decision;
mod makes;
mod reads;

use decision::Decision;

// A list of clauses, the decisions that stand over it, the trail of what they reach, and whether there is a clash.
#[derive(Drop)]
pub struct Propagator {
    store: ClauseStore,
    trail: Trail,
    decisions: Vec<Decision>,
    // a bool, and no trail that is missing: in a clash the trail has to be there, to be cut when a decision is withdrawn
    clashed: bool,
    ghost sized: { store.values ≡ values_of trail },
    ghost roomy: { store.values ≤ vec_capacity decisions },
    ghost ok: { ∥ Standing store.values (clauses_of store) (literals_of trail) (literals_in decisions.items) (heights_in decisions.items) clashed ∥₁ },
}
