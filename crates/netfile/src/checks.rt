ghost use Rattle.std.specs.Prelude.{◌≡◌, ℕ, length, drop, [], ◌∷◌};
ghost use Rattle.netfile.specs.declared.record.Kind.TheVariants.{Head as HeadKind, Point as PointKind, Table as TableKind};
ghost use Rattle.netfile.specs.Records.{item_of, checked, at_place};
ghost use Rattle.netfile.specs.Answers.{map_ok};

use crate::record::Record;
use network::{LABEL_BYTES, MAX_POINTS, MAX_TABLES, Point, Refusal};

// A head: version 1, 1 to 48 points, up to 64 tables.
pub(crate) fn head(version: u8, points: usize, tables: usize) -> Result<Record, Refusal>
    ensures { (place : ℕ) → map_ok item_of (at_place place result) ≡ checked place HeadKind (version ∷ points ∷ tables ∷ []) }
{
    if version == 1 && points >= 1 && points <= MAX_POINTS && tables <= MAX_TABLES {
        return Ok(Record::Head { points, tables });
    }
    Err(Refusal::BadHead)
}

// The label in the body of a point.
pub(crate) fn label(body: &[u8]) -> [u8; LABEL_BYTES]
    requires { length body.now ≡ 9 }
    ensures { result ≡ drop 1 body.now }
{
    body[1..].try_into().unwrap()
}

// A point: 1 to 16 values, and a label of printable bytes.
pub(crate) fn point(values: u8, label: [u8; LABEL_BYTES]) -> Result<Record, Refusal>
    ensures { (place : ℕ) → map_ok item_of (at_place place result) ≡ checked place PointKind (values ∷ label) }
{
    Point::new(values, label)
        .map(Record::Point)
        .ok_or(Refusal::BadPoint)
}

// A table: its lower point below its higher.
pub(crate) fn table(low: u8, high: u8) -> Result<Record, Refusal>
    ensures { (place : ℕ) → map_ok item_of (at_place place result) ≡ checked place TableKind (low ∷ high ∷ []) }
{
    if low < high {
        return Ok(Record::Table { low, high });
    }
    Err(Refusal::BadTable)
}
