ghost use Rattle.std.specs.Prelude.{◌≡◌, ◌<◌, [], ◌∷◌, IfOk};
ghost use Rattle.theory.specs.Literals.{is_out};
ghost use Rattle.theory.specs.Encodings.{some_clause};
ghost use Rattle.network.specs.Points.{counts_of};

use literals::Literal;
use network::PointList;
use std::alloc::{AllocError, Global};

// Some value of the point is in.
pub(crate) fn some_clause(
    heap: Global,
    points: &PointList,
    point: usize,
) -> Result<Vec<u32>, AllocError>
    ensures { IfOk result (λ c. c.items ≡ some_clause (counts_of points.now) point) }
{
    let mut clause = Vec::new(heap);
    let first = points.offset(point);
    for i in 0..points.count(point) {
        clause.push(u32::from(Literal::is_in(first + i)))?;
    }
    Ok(clause)
}

// Two values are not both in.
pub(crate) fn not_both(heap: Global, one: usize, other: usize) -> Result<Vec<u32>, AllocError>
    requires one { one < 1024 }
    requires other { other < 1024 }
    ensures { IfOk result (λ c. c.items ≡ is_out one ∷ is_out other ∷ []) }
{
    let mut clause = Vec::new(heap);
    clause.push(u32::from(Literal::is_out(one)))?;
    clause.push(u32::from(Literal::is_out(other)))?;
    Ok(clause)
}
