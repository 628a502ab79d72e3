// Sessions over a network's own clauses.
#![tactic(auto)]

mod networks;

pub use networks::open_network;
