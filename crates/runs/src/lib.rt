// Runs of a session's calls, from its opening on, with the whole promise.
#![tactic(auto)]

mod caller;
mod playing;

pub use caller::Caller;
pub use playing::{play, play_all};
