ghost use Rattle.std.specs.Prelude.{◌≡◌, ℕ, ◌+◌, ◌*◌, ◌<◌, ◌≤◌, [], ◌∷◌, map, length, replicate, IfOk, Some, None, vec_len, MatchOption};
ghost use Rattle.theory.specs.Numbering.{count, offset, total, number as number_of_value, place};
ghost use Rattle.network.specs.Bounds.{PointsWithin, most_points, most_values};
ghost use Rattle.network.specs.Points.{points_of, counts_of, entries, label_at, number_at, Undone};

use super::PointList;
use crate::{LABEL_BYTES, MAX_POINTS, Point, numbering};
use std::alloc::{AllocError, Global};

impl PointList {
    // One point of one value, its label eight spaces.
    pub fn blank(heap: Global) -> Result<PointList, AllocError>
        ensures { IfOk result (λ l. points_of l ≡ record { values = 1; label = replicate 8 32 } ∷ []) }
    {
        let mut points = Vec::new(heap);
        points.push(Point::blank())?;
        Ok(PointList { points })
    }

    // A point list of these points, or nothing where there are none or too many.
    pub fn new(points: Vec<Point>) -> Option<PointList>
        ensures { MatchOption result (PointsWithin (vec_len points) → ⊥) (λ l. points_of l ≡ entries points.items) }
    {
        if points.is_empty() || points.len() > MAX_POINTS {
            return None;
        }
        Some(PointList { points })
    }

    // The points, in order.
    pub fn points(&self) -> &[Point]
        ensures { result.now ≡ self.now.points.items }
    {
        &self.points
    }

    // How many points there are.
    pub fn len(&self) -> usize
        ensures { result ≡ length (counts_of self.now) }
    {
        self.points.len()
    }

    // How many values the point has: 0 where there is no such point.
    pub fn count(&self, point: usize) -> usize
        ensures value { result ≡ count (counts_of self.now) point }
        ensures bound { result ≤ most_values }
    {
        numbering::count(&self.points, point)
    }

    // The label of the point.
    pub fn label(&self, point: usize) -> Option<[u8; LABEL_BYTES]>
        ensures { result ≡ label_at (points_of self.now) point }
    {
        Some(self.points.get(point)?.label())
    }

    // How many values the points before this one have.
    pub fn offset(&self, point: usize) -> usize
        ensures value { result ≡ offset (counts_of self.now) point }
        ensures bound { result ≤ most_points * most_values }
    {
        numbering::offset(&self.points, point)
    }

    // How many values there are in all, N.
    pub fn total(&self) -> usize
        ensures { result ≡ total (counts_of self.now) }
    {
        numbering::total(&self.points)
    }

    // The number of a value: nothing where there is no such value.
    pub fn number(&self, point: usize, value: usize) -> Option<usize>
        ensures { result ≡ number_at (counts_of self.now) point value }
    {
        numbering::number(&self.points, point, value)
    }

    // The point and the value that have a value number: nothing from N on.
    pub fn place(&self, number: usize) -> Option<(usize, usize)>
        ensures value { result ≡ place (counts_of self.now) number }
        ensures inverse { Undone (counts_of self.now) number result }
        ensures covers { (p i : ℕ) → i < count (counts_of self.now) p → place (counts_of self.now) (number_of_value (counts_of self.now) p i) ≡ Some (p, i) }
    {
        numbering::place(&self.points, number)
    }
}
