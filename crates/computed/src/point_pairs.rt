ghost use Rattle.std.specs.Prelude.{◌≡◌, ◌*◌, ◌≤◌, length, slice_get};
ghost use Rattle.std.specs.Option.{option_map};
ghost use Rattle.theory.specs.Encodings.{not_two, at_most_one};
ghost use Rattle.network.specs.Bounds.{most_points};
ghost use Rattle.network.specs.Points.{counts_of};
ghost use Rattle.computed.specs.Ids.{clause_of};

use crate::id::ClauseId;
use literals::Literal;
use network::{PointList, blocks};

// How many pairs of values the point has, each with a clause that not both are in.
fn not_two_count(points: &PointList, p: usize) -> usize
    ensures value { result ≡ length (not_two (counts_of points.now) p) }
    ensures bound { result ≤ 120 }
{
    let values = points.count(p);
    (values * values - values) / 2
}

// How many at-most-one clauses the points have.
pub(crate) fn at_most_one_count(points: &PointList) -> usize
    ensures value { result ≡ length (at_most_one (counts_of points.now)) }
    ensures bound { result ≤ 120 * most_points }
{
    (0..points.len()).map(|p| not_two_count(points, p)).sum()
}

// Clause n of those that no two values of the point are in.
fn not_two<'a>(points: &'a PointList, p: usize, n: usize) -> Option<ClauseId<'a>>
    ensures { option_map clause_of result ≡ slice_get (not_two (counts_of points.now) p) n }
{
    let count = points.count(p);
    let (i, left) = blocks::locate(count, |i| count - (i + 1), n)?;
    let value = points.offset(p) + i;
    let other = value + 1 + left;
    Some(ClauseId::Two(Literal::is_out(value), Literal::is_out(other)))
}

// At-most-one clause n.
pub(crate) fn at_most_one<'a>(points: &'a PointList, n: usize) -> Option<ClauseId<'a>>
    ensures { option_map clause_of result ≡ slice_get (at_most_one (counts_of points.now)) n }
{
    let (p, left) = blocks::locate(points.len(), |p| not_two_count(points, p), n)?;
    not_two(points, p, left)
}
