// Pages: what a session shows as text, a line for each of its points.
#![tactic(auto)]

mod bytes;
mod lines;
mod refusal;
mod signs;
mod writing;

pub use refusal::PageRefusal;
pub use writing::{page, write_page};
