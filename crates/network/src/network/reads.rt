ghost use Rattle.std.specs.Prelude.{◌≡◌, ℕ, ◌≤◌, [], ◌∷◌, replicate, IfOk, vec_len};
ghost use Rattle.theory.specs.Network.{Proper};
ghost use Rattle.network.specs.Bounds.{most_tables};
ghost use Rattle.network.specs.Points.{points_of, counts_of};
ghost use Rattle.network.specs.Tables.{tables_of, TablesWithin};
ghost use Rattle.network.specs.Contents.{contents_of, meaning, blank};

use super::Network;
use crate::{Point, PointList, Table};
use std::alloc::{AllocError, Global};

impl Network {
    // The network that everything starts from: one point of one value, its label eight spaces.
    pub fn start(heap: Global) -> Result<Network, AllocError>
        ensures { IfOk result (λ n. contents_of n ≡ blank) }
    {
        let points = PointList::blank(heap)?;
        let tables = Vec::new(heap);
        Ok(Network { points, tables })
    }

    // A network of these points and tables.
    pub fn assemble(points: PointList, tables: Vec<Table>) -> Network
        requires few { vec_len tables ≤ most_tables }
        requires within { TablesWithin (counts_of points) (tables_of tables.items) }
        ensures { contents_of result ≡ record { points = points_of points; tables = tables_of tables.items } }
    {
        Network { points, tables }
    }

    // The points.
    pub fn points(&self) -> &PointList
        ensures { result.now ≡ self.now.points }
    {
        &self.points
    }

    // The tables, in order. Each joins a lower to a higher point of the network.
    pub fn tables(&self) -> &[Table]
        ensures value { result.now ≡ self.now.tables.items }
        ensures proper { Proper (meaning self.now) }
    {
        &self.tables
    }
}
