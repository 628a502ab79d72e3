// Clause books that keep no clause and answer from a network's tables.
#![tactic(auto)]

mod book;
mod direct;
mod half;
mod halves;
mod id;
mod point_pairs;
mod scores;
mod sizes;
mod table_clauses;
mod tables;

pub use book::ComputedBook;
pub use half::HalfBook;
pub use halves::table_halves;
pub use scores::{better_side, half_scores};
