ghost use Rattle.std.specs.Prelude.{◌≡◌};
ghost use Rattle.theory.specs.Network.{allows};
ghost use Rattle.network.specs.Tables.{table_of, no_pairs, with_allowed};

use super::Table;
use crate::MAX_VALUES;

impl Table {
    // A table between two points that allows no pair.
    pub fn new(low: u8, high: u8) -> Table
        ensures { table_of result ≡ record { low = low; high = high; rows = no_pairs } }
    {
        Table {
            low,
            high,
            rows: [[false; MAX_VALUES]; MAX_VALUES],
        }
    }

    // The lower point.
    pub fn low(&self) -> usize
        ensures { result ≡ self.now.low }
    {
        self.low as usize
    }

    // The higher point.
    pub fn high(&self) -> usize
        ensures { result ≡ self.now.high }
    {
        self.high as usize
    }

    // Whether the lower point's value i and the higher point's value j may go together.
    pub fn allows(&self, i: usize, j: usize) -> bool
        ensures { result ≡ allows (table_of self.now) i j }
    {
        i < MAX_VALUES && j < MAX_VALUES && self.rows[i][j]
    }

    // Allows one more pair; a pair past the most values a point can have changes nothing.
    pub fn allow(&mut self, i: usize, j: usize)
        ensures { table_of self.new ≡ with_allowed (table_of self.old) i j }
    {
        if i < MAX_VALUES && j < MAX_VALUES {
            self.rows[i][j] = true;
        }
    }
}
