// The propagator: a list of clauses, the decisions that stand over it, and all that they reach.
#![tactic(auto)]

mod propagator;

pub use propagator::Propagator;
