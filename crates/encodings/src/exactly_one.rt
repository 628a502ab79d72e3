ghost use Rattle.std.specs.Prelude.{◌≡◌, ℕ, ◌<◌, ◌++◌, OnOk};
ghost use Rattle.theory.specs.Numbering.{count};
ghost use Rattle.theory.specs.Encodings.{at_least_one, not_with_later, not_two, at_most_one};
ghost use Rattle.network.specs.Points.{counts_of};
ghost use Rattle.encodings.specs.ClauseLists.{clauses_of};

use crate::clause;
use network::PointList;
use std::alloc::{AllocError, Global};

// At least one: for each point, its in-literals.
pub(crate) fn at_least_one(
    heap: Global,
    points: &PointList,
    out: &mut Vec<Vec<u32>>,
) -> Result<(), AllocError>
    ensures { OnOk result (clauses_of out.new ≡ clauses_of out.old ++ at_least_one (counts_of points.now)) }
{
    for p in 0..points.len() {
        let clause = clause::some_clause(heap, points, p)?;
        out.push(clause)?;
    }
    Ok(())
}

// A value of a point is not in beside any later one.
fn not_with_later(
    heap: Global,
    points: &PointList,
    p: usize,
    i: usize,
    out: &mut Vec<Vec<u32>>,
) -> Result<(), AllocError>
    requires { i < count (counts_of points.now) p }
    ensures { OnOk result (clauses_of out.new ≡ clauses_of out.old ++ not_with_later (counts_of points.now) p i) }
{
    let first = points.offset(p);
    for j in i + 1..points.count(p) {
        let clause = clause::not_both(heap, first + i, first + j)?;
        out.push(clause)?;
    }
    Ok(())
}

// No two values of a point are in.
fn not_two(
    heap: Global,
    points: &PointList,
    p: usize,
    out: &mut Vec<Vec<u32>>,
) -> Result<(), AllocError>
    ensures { OnOk result (clauses_of out.new ≡ clauses_of out.old ++ not_two (counts_of points.now) p) }
{
    for i in 0..points.count(p) {
        not_with_later(heap, points, p, i, out)?;
    }
    Ok(())
}

// At most one: for each point and each two of its values, the two out-literals.
pub(crate) fn at_most_one(
    heap: Global,
    points: &PointList,
    out: &mut Vec<Vec<u32>>,
) -> Result<(), AllocError>
    ensures { OnOk result (clauses_of out.new ≡ clauses_of out.old ++ at_most_one (counts_of points.now)) }
{
    for p in 0..points.len() {
        not_two(heap, points, p, out)?;
    }
    Ok(())
}
