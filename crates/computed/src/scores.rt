ghost use Rattle.std.specs.Prelude.{◌≡◌};
ghost use Rattle.theory.specs.Encodings.{half, better_side};
ghost use Rattle.network.specs.Contents.{meaning};
ghost use Rattle.network.specs.Points.{counts_of};
ghost use Rattle.network.specs.Tables.{table_of};
ghost use Rattle.partners.specs.Ends.{half_of};
ghost use Rattle.books.specs.Scores.{ScoresOf};
ghost use Rattle.computed.specs.Scores.{Scored};

use crate::half::HalfBook;
use crate::halves::table_halves;
use crate::table_clauses::TableClauses;
use books::{HalfScores, HalvesRefusal};
use network::{Network, PointList, Table};
use theory::Side;

// The sums of the scores of two halves, and the side of the better half: the lower on equal sums.
fn scores(lower: &HalfBook, higher: &HalfBook) -> HalfScores
    ensures { ScoresOf (half_of lower.now.end) (half_of higher.now.end) result }
{
    books::scores(lower, higher)
}

// The side whose half has the higher sum of scores: the lower on equal sums.
pub fn better_side(points: &PointList, table: &Table) -> Side
    ensures { result ≡ better_side (counts_of points.now) (table_of table.now) }
{
    let lower = HalfBook::new(points, table, Side::Lower);
    let higher = HalfBook::new(points, table, Side::Higher);
    scores(&lower, &higher).better
}

impl<'a> TableClauses<'a> {
    // The half with the higher sum of scores: the lower side's on equal sums.
    pub fn better_half(&self) -> HalfBook<'a>
        ensures clauses { half_of result.end ≡ half (counts_of self.now.points.now) (better_side (counts_of self.now.points.now) (table_of self.now.table.now)) (table_of self.now.table.now) }
        ensures points { result.end.points.now ≡ self.now.points.now }
    {
        self.half(better_side(self.points, self.table))
    }
}

// The scores of a table's halves and the better half, by the table's number, or the refusal where there is no such table.
pub fn half_scores(network: &Network, table: usize) -> Result<HalfScores, HalvesRefusal>
    ensures { Scored (meaning network.now) table result }
{
    let (lower, higher) = table_halves(network, table)?;
    Ok(scores(&lower, &higher))
}
