ghost use Rattle.std.specs.Prelude.{◌≡◌, ◌<◌, ◌++◌, IfOk, OnOk};
ghost use Rattle.theory.specs.Network.{near};
ghost use Rattle.theory.specs.Numbering.{count};
ghost use Rattle.theory.specs.Encodings.{support_clause, half};
ghost use Rattle.network.specs.Points.{counts_of};
ghost use Rattle.network.specs.Tables.{table_of};
ghost use Rattle.encodings.specs.ClauseLists.{clauses_of};

use literals::Literal;
use network::{PointList, Table};
use partners::sides;
use std::alloc::{AllocError, Global};
use theory::Side;

// The support clause of a value: its out-literal, then the in-literals of its partners.
fn support_clause(
    heap: Global,
    points: &PointList,
    table: &Table,
    side: Side,
    i: usize,
) -> Result<Vec<u32>, AllocError>
    requires { i < count (counts_of points.now) (near side (table_of table.now)) }
    ensures { IfOk result (λ c. c.items ≡ support_clause (counts_of points.now) side (table_of table.now) i) }
{
    let mut clause = Vec::new(heap);
    let other = sides::far(table, side);
    let first = points.offset(other);
    clause.push(u32::from(Literal::is_out(points.offset(sides::near(table, side)) + i)))?;
    for j in 0..points.count(other) {
        if sides::is_partner(table, side, i, j) {
            clause.push(u32::from(Literal::is_in(first + j)))?;
        }
    }
    Ok(clause)
}

// A half: the support clauses of a table for the values of one end.
pub(crate) fn half(
    heap: Global,
    points: &PointList,
    table: &Table,
    side: Side,
    out: &mut Vec<Vec<u32>>,
) -> Result<(), AllocError>
    ensures { OnOk result (clauses_of out.new ≡ clauses_of out.old ++ half (counts_of points.now) side (table_of table.now)) }
{
    for i in 0..points.count(sides::near(table, side)) {
        let clause = support_clause(heap, points, table, side, i)?;
        out.push(clause)?;
    }
    Ok(())
}
