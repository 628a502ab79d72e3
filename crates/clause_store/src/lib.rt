// Clause stores: a list of clauses in one row of literals, with an index from each literal to the clauses that hold it.
#![tactic(auto)]

mod error;
mod flat;
mod gather;
mod holders;
mod index;
mod store;

pub use error::OpenError;
pub use store::ClauseStore;
