// The ends of a table, and the partners of its values.
#![tactic(auto)]

mod ends;
pub mod sides;

pub use ends::End;
