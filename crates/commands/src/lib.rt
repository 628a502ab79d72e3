// The commands of the program plan, and what is written in answer.
#![tactic(auto)]

pub mod answers;
pub mod command;
pub mod text;
