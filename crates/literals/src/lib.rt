// Literals as a type.
#![tactic(auto)]

mod literal;

pub use literal::Literal;
