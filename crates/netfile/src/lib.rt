// The network file: bytes to records, records to a network, and every refusal with its layer and its place.
#![tactic(auto)]

mod checks;
mod cursor;
mod draft;
pub mod fault;
mod loading;
mod reader;
pub mod record;
mod whole;

pub use loading::{ReadError, load, read};
