// Writers of a network's clauses into words of the caller.
#![tactic(auto)]

mod halving;
mod writing;

pub use halving::write_halves;
pub use writing::write;
