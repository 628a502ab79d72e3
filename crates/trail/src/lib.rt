// Trails: literals that are held, in the order in which they were reached, and the marks of the values by them.
#![tactic(auto)]

mod trail;

pub use trail::Trail;
