ghost use Rattle.std.specs.Prelude.{◌≡◌, ℕ, ◌<◌, ◌≤◌, vec_items, vec_len};
ghost use Rattle.network.specs.Bounds.{PointsWithin};

use crate::Point;

mod reads;

// The points of a network, 1 to 48 of them, in order.
#[derive(Drop)]
pub struct PointList {
    points: Vec<Point>,
    ghost within: { PointsWithin (vec_len points) },
}
