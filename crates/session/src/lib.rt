// Sessions: decisions over a network's points and any clause book, and what follows from them.
#![tactic(auto)]

mod session;

pub use session::Session;
