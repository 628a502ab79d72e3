// The calls of a session, their answers and refusals, and what is promised of a whole run of calls.
#![tactic(auto)]

mod call;
mod refusal;

pub use call::{Call, Decided, Exchange};
pub use refusal::CallRefusal;

// The most decisions that may stand.
pub const MAX_DECISIONS: usize = 768;
