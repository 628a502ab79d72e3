ghost use Rattle.std.specs.Prelude.{◌≡◌};
ghost use Rattle.theory.specs.Network.{near, far, partner};
ghost use Rattle.network.specs.Tables.{table_of};

use network::Table;
use theory::Side;

// `near` and `far` stay two: a shared function would be the same match, with one parameter more.
// The point at a table's end on one side.
pub fn near(table: &Table, side: Side) -> usize
    ensures { result ≡ near side (table_of table.now) }
{
    // a match, here and below: there are just these two sides
    match side {
        Side::Lower => table.low(),
        Side::Higher => table.high(),
    }
}

// The point at the other end.
pub fn far(table: &Table, side: Side) -> usize
    ensures { result ≡ far side (table_of table.now) }
{
    match side {
        Side::Lower => table.high(),
        Side::Higher => table.low(),
    }
}

// Whether the far point's value j is a partner of the near point's value i.
pub fn is_partner(table: &Table, side: Side, i: usize, j: usize) -> bool
    ensures { result ≡ partner side (table_of table.now) i j }
{
    match side {
        Side::Lower => table.allows(i, j),
        Side::Higher => table.allows(j, i),
    }
}
