// Unit propagation: the clauses of a store add to a trail what they force.
#![tactic(auto)]

mod conflict;
mod propagating;
mod scanning;
mod visiting;

pub use conflict::Conflict;
pub use propagating::{propagate, settle};
