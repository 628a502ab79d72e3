ghost use Rattle.std.specs.Prelude.{◌≡◌, ℕ, ◌≤◌, vec_len};
ghost use Rattle.network.specs.Bounds.{most_tables};
ghost use Rattle.network.specs.Points.{counts_of};
ghost use Rattle.network.specs.Tables.{tables_of, TablesWithin};

use crate::{PointList, Table};

mod reads;

// A network: its points, and up to 64 tables between them, in order.
#[derive(Drop)]
pub struct Network {
    points: PointList,
    tables: Vec<Table>,
    ghost few: { vec_len tables ≤ most_tables },
    ghost within: { ∥ TablesWithin (counts_of points) (tables_of tables.items) ∥₁ },
}
