ghost use Rattle.std.specs.Prelude.{◌≡◌, length, slice_get};
ghost use Rattle.theory.specs.Encodings.{some_clause};
ghost use Rattle.network.specs.Points.{counts_of};
ghost use Rattle.computed.specs.Ids.{clause_of};

use literals::Literal;
use network::PointList;
use partners::End;

// Which clause of a network it is.
#[derive(Clone, Copy)]
pub enum ClauseId<'a> {
    // some value of the point is in
    SomeOf { points: &'a PointList, point: usize },
    // one of two literals holds
    Two(Literal, Literal),
    // the support clause of a value at one end of a table
    Support(End<'a>, u8),
}

// Literal j of the clause that some value of the point is in: nothing where there is none.
fn some_literal(points: &PointList, point: usize, j: usize) -> Option<Literal>
    ensures { result ≡ slice_get (some_clause (counts_of points.now) point) j }
{
    if j < points.count(point) {
        Some(Literal::is_in(points.offset(point) + j))
    } else {
        None
    }
}

impl<'a> ClauseId<'a> {
    // The length of the clause.
    pub(crate) fn length(&self) -> usize
        ensures { result ≡ length (clause_of self.now) }
    {
        match self {
            ClauseId::SomeOf { points, point } => points.count(*point),
            ClauseId::Two(_, _) => 2,
            ClauseId::Support(end, i) => end.support_length(*i as usize),
        }
    }

    // Literal j of the clause: nothing where there is none.
    pub(crate) fn literal(&self, j: usize) -> Option<Literal>
        ensures { result ≡ slice_get (clause_of self.now) j }
    {
        match self {
            ClauseId::SomeOf { points, point } => some_literal(points, *point, j),
            ClauseId::Two(one, other) => match j {
                0 => Some(*one),
                1 => Some(*other),
                _ => None,
            },
            ClauseId::Support(end, i) => end.support_literal(*i, j),
        }
    }
}
