ghost use Rattle.std.specs.Prelude.{◌≡◌, ℕ, ◌<◌, ◌++◌, OnOk};
ghost use Rattle.theory.specs.Numbering.{count};
ghost use Rattle.theory.specs.Encodings.{barred_with, direct_clauses};
ghost use Rattle.network.specs.Points.{counts_of};
ghost use Rattle.network.specs.Tables.{table_of};
ghost use Rattle.encodings.specs.ClauseLists.{clauses_of};

use crate::clause;
use network::{PointList, Table};
use std::alloc::{AllocError, Global};

// The lower point's value i with each value of the higher point that is not allowed beside it.
fn barred_with(
    heap: Global,
    points: &PointList,
    table: &Table,
    i: usize,
    out: &mut Vec<Vec<u32>>,
) -> Result<(), AllocError>
    requires { i < count (counts_of points.now) table.now.low }
    ensures { OnOk result (clauses_of out.new ≡ clauses_of out.old ++ barred_with (counts_of points.now) (table_of table.now) i) }
{
    let low = points.offset(table.low());
    let high = points.offset(table.high());
    for j in 0..points.count(table.high()) {
        if !table.allows(i, j) {
            let clause = clause::not_both(heap, low + i, high + j)?;
            out.push(clause)?;
        }
    }
    Ok(())
}

// The direct clauses of a table: for each pair that is not allowed, the two out-literals.
pub(crate) fn direct(
    heap: Global,
    points: &PointList,
    table: &Table,
    out: &mut Vec<Vec<u32>>,
) -> Result<(), AllocError>
    ensures { OnOk result (clauses_of out.new ≡ clauses_of out.old ++ direct_clauses (counts_of points.now) (table_of table.now)) }
{
    for i in 0..points.count(table.low()) {
        barred_with(heap, points, table, i, out)?;
    }
    Ok(())
}
