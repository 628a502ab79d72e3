ghost use Rattle.std.specs.Prelude.{◌≡◌, ◌*◌, ◌≤◌, length, sum};
ghost use Rattle.network.specs.Bounds.{most_tables, most_values};
ghost use Rattle.network.specs.Contents.{meaning};
ghost use Rattle.network.specs.Points.{counts_of};
ghost use Rattle.network.specs.Tables.{table_of};
ghost use Rattle.computed.specs.Sizes.{size_of, of_tables, Sized};

use crate::book::ComputedBook;
use crate::table_clauses::TableClauses;
use books::ClauseBook;
use network::{MAX_TABLES, Network};
use theory::Encoding;

impl<'a> TableClauses<'a> {
    // How many clauses an encoding has for the table.
    fn size(&self, encoding: Encoding) -> usize
        ensures value { result ≡ size_of encoding (counts_of self.now.points.now) (table_of self.now.table.now) }
        ensures bound { result ≤ most_values * most_values }
    {
        // a match: the encodings are an enum, and these are all there are
        match encoding {
            Encoding::Direct => self.direct_count(),
            Encoding::Support => {
                self.points.count(self.table.low()) + self.points.count(self.table.high())
            }
            Encoding::MinimalSupport => self.better_half().count(),
        }
    }
}

// How many clauses an encoding has for each table, in order.
pub(crate) fn sizes(network: &Network, encoding: Encoding) -> [u16; MAX_TABLES]
    ensures { Sized encoding (meaning network.now) result }
{
    let points = network.points();
    let mut sizes = [0u16; MAX_TABLES];
    // by place: tried as `array::from_fn`, with the size of each table by a closure, and what is promised (`returns`) had no proof
    for (k, table) in network.tables().iter().enumerate() {
        sizes[k] = TableClauses { points, table }.size(encoding) as u16;
    }
    sizes
}

// The sum of the sizes of tables.
fn total(sizes: &[u16]) -> usize
    requires { length sizes.now ≤ most_tables }
    ensures value { result ≡ sum sizes.now }
    ensures bound { result ≤ 65535 * most_tables }
{
    sizes.iter().map(|size| *size as usize).sum()
}

impl<'a> ComputedBook<'a> {
    // How many clauses the tables have in all.
    pub(crate) fn table_clause_count(&self) -> usize
        ensures value { result ≡ length (of_tables self.now.encoding (meaning self.now.network.now)) }
        ensures bound { result ≤ 65535 * most_tables }
    {
        total(&self.sizes[..self.network.tables().len()])
    }
}
