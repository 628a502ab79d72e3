ghost use Rattle.std.specs.Prelude.{◌≡◌, ◌≤◌, vec_len};
ghost use Rattle.theory.specs.Numbering.{total};
ghost use Rattle.network.specs.Bounds.{most_points};
ghost use Rattle.network.specs.Points.{entries, values_of};
ghost use Rattle.propagator.specs.States.{state_of};

use network::Point;
use propagator::Propagator;

mod asks;
mod decides;
mod opens;
mod performs;

// The points of a network, and the decisions over its values with all that they reach over a list of clauses.
#[derive(Drop)]
pub struct Session {
    points: Vec<Point>,
    inner: Propagator,
    ghost few: { vec_len points ≤ most_points },
    ghost sized: { total (values_of (entries points.items)) ≡ (state_of inner).values },
}
