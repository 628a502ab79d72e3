// Maps: from the bytes of a network file to the page of its session, for programs in Rattle and in C.
#![tactic(auto)]

mod error;
mod for_c;
mod mapping;

pub use error::MapError;
pub use for_c::hazhgiti_map;
pub use mapping::write_map;
