// The clauses of a network as lists, in the three encodings.
#![tactic(auto)]

mod clause;
mod encoder;
mod exactly_one;
mod halves;
mod pairs;

pub use encoder::{encode, of_points, of_table};
