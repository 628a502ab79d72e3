ghost use Rattle.std.specs.Prelude.{◌≡◌};

use crate::half::HalfBook;
use network::{PointList, Table};
use theory::Side;

// The clauses of a table, over the points that it joins.
#[derive(Clone, Copy)]
pub(crate) struct TableClauses<'a> {
    pub points: &'a PointList,
    pub table: &'a Table,
}

impl<'a> TableClauses<'a> {
    // The half for one of the table's ends.
    pub fn half(&self, side: Side) -> HalfBook<'a>
        ensures points { result.end.points.now ≡ self.now.points.now }
        ensures table { result.end.table.now ≡ self.now.table.now }
        ensures side { result.end.side ≡ side }
    {
        HalfBook::new(self.points, self.table, side)
    }
}
