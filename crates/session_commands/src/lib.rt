// The commands of the program session_plan, and what is written in answer.
#![tactic(auto)]

pub mod answers;
pub mod command;
pub mod text;
