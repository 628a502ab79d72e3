ghost use Rattle.std.specs.Prelude.{◌≡◌, ◌++◌, IfOk, OnOk};
ghost use Rattle.theory.specs.Encodings.{at_least_one, at_most_one, table_clauses, clauses};
ghost use Rattle.network.specs.Points.{counts_of};
ghost use Rattle.network.specs.Tables.{table_of};
ghost use Rattle.network.specs.Contents.{meaning};
ghost use Rattle.encodings.specs.ClauseLists.{clauses_of};

use crate::{exactly_one, halves, pairs};
use network::{Network, PointList, Table};
use std::alloc::{AllocError, Global};
use theory::{Encoding, Side};

// Adds the clauses that an encoding has for a table.
pub fn of_table(
    heap: Global,
    points: &PointList,
    table: &Table,
    encoding: Encoding,
    out: &mut Vec<Vec<u32>>,
) -> Result<(), AllocError>
    ensures { OnOk result (clauses_of out.new ≡ clauses_of out.old ++ table_clauses encoding (counts_of points.now) (table_of table.now)) }
{
    match encoding {
        Encoding::Direct => pairs::direct(heap, points, table, out),
        Encoding::Support => {
            halves::half(heap, points, table, Side::Lower, out)?;
            halves::half(heap, points, table, Side::Higher, out)
        }
        Encoding::MinimalSupport => {
            let side = computed::better_side(points, table);
            halves::half(heap, points, table, side, out)
        }
    }
}

// The clauses of the points: of each at least one value is in, and at most one.
pub fn of_points(heap: Global, points: &PointList) -> Result<Vec<Vec<u32>>, AllocError>
    ensures { IfOk result (λ v. clauses_of v ≡ at_least_one (counts_of points.now) ++ at_most_one (counts_of points.now)) }
{
    let mut out = Vec::new(heap);
    exactly_one::at_least_one(heap, points, &mut out)?;
    exactly_one::at_most_one(heap, points, &mut out)?;
    Ok(out)
}

// The clauses of a network, in order.
pub fn encode(
    heap: Global,
    network: &Network,
    encoding: Encoding,
) -> Result<Vec<Vec<u32>>, AllocError>
    ensures { IfOk result (λ v. clauses_of v ≡ clauses encoding (meaning network.now)) }
{
    let points = network.points();
    let mut out = of_points(heap, points)?;
    // a table at a time, and not by `books::to_lists`: a computed book would look for each literal from the first clause on
    for table in network.tables() {
        of_table(heap, points, table, encoding, &mut out)?;
    }
    Ok(out)
}
