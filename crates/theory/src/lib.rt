// What the product's words mean: the definitions in specs/ and the laws between them.
// The types are those that a meaning and a program share. Each function has a law as its contract, so that the check asks for the law's proof.
#![tactic(auto)]

pub mod models;
mod names;
pub mod propagation;

pub use names::UnknownEncoding;

// A way to write a network as clauses.
#[derive(Clone, Copy, Debug, PartialEq, Eq)]
pub enum Encoding {
    Direct,
    Support,
    MinimalSupport,
}

// An end of a table: its lower-numbered point or its higher-numbered one.
#[derive(Clone, Copy, Debug, PartialEq, Eq)]
pub enum Side {
    Lower,
    Higher,
}

// What is known of a value under decisions.
#[derive(Clone, Copy, Debug, PartialEq, Eq)]
pub enum Mark {
    In,
    Out,
    Open,
}
