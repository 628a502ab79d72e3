ghost use Rattle.std.specs.Prelude.{◌≡◌, ℕ, ◌*◌, ◌≤◌, length};
ghost use Rattle.theory.specs.Numbering.{count, offset, total, place};
ghost use Rattle.network.specs.Bounds.{most_points, most_values};
ghost use Rattle.network.specs.Points.{entries, values_of, number_at};

use crate::{Point, blocks};

// How many values a point has: 0 where there is no such point.
pub fn count(points: &[Point], point: usize) -> usize
    ensures value { result ≡ count (values_of (entries points.now)) point }
    ensures bound { result ≤ most_values }
{
    // 0 for a missing point, by the definition: such a point has no values
    points.get(point).map_or(0, |p| p.values() as usize)
}

// The bound on the points stands in three contracts: a session has no point before it is opened, so it lends a slice and no `PointList`.
// The bounds on the results are promises of each function: a caller sees no other.
// How many values the points have in all.
pub(crate) fn total(points: &[Point]) -> usize
    requires { length points.now ≤ most_points }
    ensures value { result ≡ total (values_of (entries points.now)) }
    ensures bound { result ≤ most_points * most_values }
{
    points.iter().map(|p| p.values() as usize).sum()
}

// How many values the points before this one have.
pub fn offset(points: &[Point], point: usize) -> usize
    requires { length points.now ≤ most_points }
    ensures value { result ≡ offset (values_of (entries points.now)) point }
    ensures bound { result ≤ most_points * most_values }
{
    total(&points[..points.len().min(point)])
}

// The number of a value: nothing where there is no such value.
pub fn number(points: &[Point], point: usize, value: usize) -> Option<usize>
    requires { length points.now ≤ most_points }
    ensures { result ≡ number_at (values_of (entries points.now)) point value }
{
    if value < count(points, point) {
        Some(offset(points, point) + value)
    } else {
        None
    }
}

// The point and the value that have a value number.
pub(crate) fn place(points: &[Point], number: usize) -> Option<(usize, usize)>
    ensures { result ≡ place (values_of (entries points.now)) number }
{
    blocks::locate(points.len(), |point| count(points, point), number)
}
