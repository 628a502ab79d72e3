ghost use Rattle.std.specs.Prelude.{◌≡◌, slice_get};
ghost use Rattle.std.specs.Option.{option_map};
ghost use Rattle.theory.specs.declared.Encoding.TheVariants.{Support};
ghost use Rattle.theory.specs.Encodings.{table_clauses};
ghost use Rattle.network.specs.Contents.{meaning};
ghost use Rattle.network.specs.Points.{counts_of};
ghost use Rattle.network.specs.Tables.{table_of};
ghost use Rattle.computed.specs.Ids.{clause_of};
ghost use Rattle.computed.specs.Sizes.{of_tables};

use crate::book::ComputedBook;
use crate::id::ClauseId;
use crate::table_clauses::TableClauses;
use books::ClauseBook;
use network::blocks;
use theory::{Encoding, Side};

impl<'a> TableClauses<'a> {
    // Clause n of both halves of the table.
    fn of_halves(&self, n: usize) -> Option<ClauseId<'a>>
        ensures { option_map clause_of result ≡ slice_get (table_clauses Support (counts_of self.now.points.now) (table_of self.now.table.now)) n }
    {
        let lower = self.half(Side::Lower);
        let first = lower.count();
        if n < first {
            lower.clause(n)
        } else {
            self.half(Side::Higher).clause(n - first)
        }
    }

    // Clause n of the table.
    fn clause(&self, encoding: Encoding, n: usize) -> Option<ClauseId<'a>>
        ensures { option_map clause_of result ≡ slice_get (table_clauses encoding (counts_of self.now.points.now) (table_of self.now.table.now)) n }
    {
        // a match: the encodings are an enum, and each case is one call
        match encoding {
            Encoding::Direct => self.direct(n),
            Encoding::Support => self.of_halves(n),
            Encoding::MinimalSupport => self.better_half().clause(n),
        }
    }
}

impl<'a> ComputedBook<'a> {
    // Clause n of the tables, by how many clauses each has.
    pub(crate) fn table_clause(&self, n: usize) -> Option<ClauseId<'a>>
        ensures { option_map clause_of result ≡ slice_get (of_tables self.now.encoding (meaning self.now.network.now)) n }
    {
        let tables = self.network.tables();
        let (k, left) = blocks::locate(tables.len(), |k| self.sizes[k] as usize, n)?;
        let table = TableClauses {
            points: self.network.points(),
            table: &tables[k],
        };
        table.clause(self.encoding, left)
    }
}
