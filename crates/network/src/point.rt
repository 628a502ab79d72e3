ghost use Rattle.std.specs.Prelude.{◌≡◌, ℕ, ◌<◌, ◌≤◌, true, false, length, replicate, Decides, MatchOption, slice_index};
ghost use Rattle.network.specs.Bounds.{PointWithin, Printable};

use crate::{LABEL_BYTES, MAX_VALUES};

// A point of a network: how many values there are to choose from, and its label.
#[derive(Clone, Copy)]
pub struct Point {
    values: u8,
    // an array, since the format fixes its size
    label: [u8; LABEL_BYTES],
    ghost within: { PointWithin values label },
}

// Whether each byte may stand in a label.
fn printable(label: &[u8]) -> bool
    ensures { Decides result ((k : ℕ) → k < length label.now → Printable (slice_index label.now k)) }
{
    label.iter().all(|b| (0x20..=0x7e).contains(b))
}

impl Point {
    // A point, or nothing where the value count or the label is out of bounds.
    pub fn new(values: u8, label: [u8; LABEL_BYTES]) -> Option<Point>
        ensures { MatchOption result (PointWithin values label → ⊥) (λ p. (p.values ≡ values) × (p.label ≡ label)) }
    {
        if values < 1 || values as usize > MAX_VALUES || !printable(&label) {
            return None;
        }
        Some(Point { values, label })
    }

    // The point that a network starts with: one value, and a label of spaces.
    pub fn blank() -> Point
        ensures { (result.values ≡ 1) × (result.label ≡ replicate 8 32) }
    {
        Point {
            values: 1,
            label: [0x20; LABEL_BYTES],
        }
    }

    // How many values the point has.
    pub fn values(&self) -> u8
        ensures { result ≡ self.now.values }
    {
        self.values
    }

    // The point's label.
    pub fn label(&self) -> [u8; LABEL_BYTES]
        ensures { result ≡ self.now.label }
    {
        self.label
    }
}
