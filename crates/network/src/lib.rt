// Networks: points with their labels, tables of allowed pairs, value numbers; and the numbers of the refusals.
#![tactic(auto)]

pub mod blocks;
mod network;
pub mod numbering;
mod point;
mod points;
mod refusal;
mod table;

pub use network::Network;
pub use point::Point;
pub use points::PointList;
pub use refusal::Refusal;
pub use table::Table;

// The most points of a network.
pub const MAX_POINTS: usize = 48;

// The most values of a point.
pub const MAX_VALUES: usize = 16;

// The most tables of a network.
pub const MAX_TABLES: usize = 64;

// The bytes of a label.
pub const LABEL_BYTES: usize = 8;
