ghost use Rattle.std.specs.Prelude.{ℕ, ◌≤◌, [], length, slice_index_or};
ghost use Rattle.network.specs.Bounds.{most_values};

use crate::MAX_VALUES;

mod pairs;

// Which values of a lower and of a higher point may go together.
#[derive(Clone, Copy)]
pub struct Table {
    low: u8,
    high: u8,
    // an array, since the bounds fix its size
    rows: [[bool; MAX_VALUES]; MAX_VALUES],
    ghost narrow: { (i : ℕ) → length (slice_index_or rows i []) ≤ most_values },
}
