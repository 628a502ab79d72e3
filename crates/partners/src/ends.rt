ghost use Rattle.std.specs.Prelude.{◌≡◌, ◌+◌, ◌<◌, ◌≤◌, length, IfSome, slice_get};
ghost use Rattle.theory.specs.Network.{near, far, partner};
ghost use Rattle.theory.specs.Numbering.{count};
ghost use Rattle.network.specs.Bounds.{most_values};
ghost use Rattle.network.specs.Points.{counts_of};
ghost use Rattle.network.specs.Tables.{table_of};
ghost use Rattle.partners.specs.Ends.{partners_of, support_of};

use crate::sides;
use literals::Literal;
use network::{PointList, Table};
use theory::Side;

// One end of a table: the point there is the near point, and the one at the other end the far point.
#[derive(Clone, Copy)]
pub struct End<'a> {
    points: &'a PointList,
    table: &'a Table,
    side: Side,
}

impl<'a> End<'a> {
    // The end of a table on one side.
    pub fn new(points: &'a PointList, table: &'a Table, side: Side) -> End<'a>
        ensures points { result.points.now ≡ points.now }
        ensures table { result.table.now ≡ table.now }
        ensures side { result.side ≡ side }
    {
        End {
            points,
            table,
            side,
        }
    }

    // The near point.
    pub fn near(&self) -> usize
        ensures { result ≡ near self.now.side (table_of self.now.table.now) }
    {
        sides::near(self.table, self.side)
    }

    // The far point.
    pub fn far(&self) -> usize
        ensures { result ≡ far self.now.side (table_of self.now.table.now) }
    {
        sides::far(self.table, self.side)
    }

    // How many values the near point has.
    pub fn values(&self) -> usize
        ensures value { result ≡ count (counts_of self.now.points.now) (near self.now.side (table_of self.now.table.now)) }
        ensures bound { result ≤ most_values }
    {
        self.points.count(self.near())
    }

    // Whether the far point's value j is a partner of the value i.
    pub fn is_partner(&self, i: usize, j: usize) -> bool
        ensures { result ≡ partner self.now.side (table_of self.now.table.now) i j }
    {
        sides::is_partner(self.table, self.side, i, j)
    }

    // How many partners the value i has.
    pub fn partners(&self, i: usize) -> usize
        ensures value { result + 1 ≡ length (support_of self.now i) }
        ensures bound { result ≤ most_values }
    {
        // a sum of truths, and no count behind a filter: a filter's test on each value costs a wrong guess at every other one
        (0..self.points.count(self.far()))
            .map(|value| usize::from(self.is_partner(i, value)))
            .sum()
    }

    // How many literals the support clause of the value i has.
    pub fn support_length(&self, i: usize) -> usize
        ensures { result ≡ length (support_of self.now i) }
    {
        self.partners(i) + 1
    }

    // Partner n of the value i: nothing where it has no more than n.
    pub fn partner(&self, i: usize, n: usize) -> Option<usize>
        ensures value { result ≡ slice_get (partners_of self.now i) n }
        ensures bound { IfSome result (λ j. j < most_values) }
    {
        (0..self.points.count(self.far()))
            .filter(|j| self.is_partner(i, *j))
            .nth(n)
    }

    // The value is a u8, as a point's values are counted, so that the number of each literal fits.
    // Literal n of the support clause of the value i: nothing where there is none.
    pub fn support_literal(&self, i: u8, n: usize) -> Option<Literal>
        ensures { result ≡ slice_get (support_of self.now i) n }
    {
        let value = i as usize;
        if n == 0 {
            return Some(Literal::is_out(self.points.offset(self.near()) + value));
        }
        let partner = self.partner(value, n - 1)?;
        Some(Literal::is_in(self.points.offset(self.far()) + partner))
    }
}
