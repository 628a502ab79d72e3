ghost use Rattle.std.specs.Prelude.{◌≡◌, ℕ, ◌*◌, ◌<◌, ◌≤◌, not, length, filter, IfSome, slice_get};
ghost use Rattle.std.specs.Option.{option_map};
ghost use Rattle.theory.specs.declared.Side.TheVariants.{Lower};
ghost use Rattle.theory.specs.Encodings.{barred_with, direct_clauses};
ghost use Rattle.theory.specs.Network.{allows};
ghost use Rattle.theory.specs.Numbering.{values};
ghost use Rattle.network.specs.Bounds.{most_values};
ghost use Rattle.network.specs.Points.{counts_of};
ghost use Rattle.network.specs.Tables.{table_of};
ghost use Rattle.computed.specs.Ids.{clause_of};

use crate::id::ClauseId;
use crate::table_clauses::TableClauses;
use literals::Literal;
use network::blocks;
use partners::End;
use theory::Side;

impl<'a> TableClauses<'a> {
    // The lower end, whose partners are the values that the table allows.
    fn lower_end(&self) -> End<'a>
        ensures points { result.points.now ≡ self.now.points.now }
        ensures table { result.table.now ≡ self.now.table.now }
        ensures side { result.side ≡ Lower }
    {
        End::new(self.points, self.table, Side::Lower)
    }

    // The search of values that are barred stays beside that of partners in `End`: it looks for the contrary.
    // How many values of the higher point the table does not allow beside the lower point's value i.
    fn barred_count(&self, i: usize) -> usize
        ensures value { result ≡ length (barred_with (counts_of self.now.points.now) (table_of self.now.table.now) i) }
        ensures bound { result ≤ most_values }
    {
        self.points.count(self.table.high()) - self.lower_end().partners(i)
    }

    // How many direct clauses the table has.
    pub fn direct_count(&self) -> usize
        ensures value { result ≡ length (direct_clauses (counts_of self.now.points.now) (table_of self.now.table.now)) }
        ensures bound { result ≤ most_values * most_values }
    {
        (0..self.points.count(self.table.low()))
            .map(|i| self.barred_count(i))
            .sum()
    }

    // Value n of the values of the higher point that the table does not allow beside the lower point's value i.
    fn barred_value(&self, i: usize, n: usize) -> Option<usize>
        ensures value { result ≡ slice_get (filter (λ j. not (allows (table_of self.now.table.now) i j)) (values (counts_of self.now.points.now) self.now.table.now.high)) n }
        ensures bound { IfSome result (λ j. j < most_values) }
    {
        let lower = self.lower_end();
        (0..self.points.count(self.table.high()))
            .filter(|value| !lower.is_partner(i, *value))
            .nth(n)
    }

    // Clause n of those that bar the lower point's value i with a value of the higher point.
    fn barred(&self, i: usize, n: usize) -> Option<ClauseId<'a>>
        requires { i < most_values }
        ensures { option_map clause_of result ≡ slice_get (barred_with (counts_of self.now.points.now) (table_of self.now.table.now) i) n }
    {
        let j = self.barred_value(i, n)?;
        let low = self.points.offset(self.table.low()) + i;
        let high = self.points.offset(self.table.high()) + j;
        Some(ClauseId::Two(Literal::is_out(low), Literal::is_out(high)))
    }

    // Direct clause n of the table.
    pub fn direct(&self, n: usize) -> Option<ClauseId<'a>>
        ensures { option_map clause_of result ≡ slice_get (direct_clauses (counts_of self.now.points.now) (table_of self.now.table.now)) n }
    {
        let values = self.points.count(self.table.low());
        let (i, left) = blocks::locate(values, |i| self.barred_count(i), n)?;
        self.barred(i, left)
    }
}
