ghost use Rattle.network.specs.Contents.{meaning};
ghost use Rattle.computed.specs.Scores.{HalvesFound};

use crate::half::HalfBook;
use books::HalvesRefusal;
use network::Network;
use theory::Side;

// The lower and the higher half of a table, by the table's number, or the refusal where there is no such table.
pub fn table_halves<'a>(
    network: &'a Network,
    table: usize,
) -> Result<(HalfBook<'a>, HalfBook<'a>), HalvesRefusal>
    ensures { HalvesFound (meaning network.now) table result }
{
    let found = network.tables().get(table).ok_or(HalvesRefusal::NoSuch)?;
    let points = network.points();
    let lower = HalfBook::new(points, found, Side::Lower);
    let higher = HalfBook::new(points, found, Side::Higher);
    Ok((lower, higher))
}
