ghost use Rattle.std.specs.Prelude.{◌≡◌, slice_get};
ghost use Rattle.std.specs.Option.{option_map};
ghost use Rattle.partners.specs.Ends.{half_of};
ghost use Rattle.computed.specs.Ids.{clause_of};

use crate::id::ClauseId;
use books::ClauseBook;
use network::{PointList, Table};
use partners::End;
use theory::Side;

// One half of a table's support clauses, found as they are asked for.
#[derive(Clone, Copy)]
pub struct HalfBook<'a> {
    end: End<'a>,
}

impl<'a> HalfBook<'a> {
    // The half of a table for one of its ends.
    pub fn new(points: &'a PointList, table: &'a Table, side: Side) -> HalfBook<'a>
        ensures points { result.end.points.now ≡ points.now }
        ensures table { result.end.table.now ≡ table.now }
        ensures side { result.end.side ≡ side }
    {
        HalfBook {
            end: End::new(points, table, side),
        }
    }

    // Which clause stands at the place n.
    pub(crate) fn clause(&self, n: usize) -> Option<ClauseId<'a>>
        ensures { option_map clause_of result ≡ slice_get (half_of self.now.end) n }
    {
        if n < self.end.values() {
            Some(ClauseId::Support(self.end, n as u8))
        } else {
            None
        }
    }
}

impl<'a> ClauseBook for HalfBook<'a> {
    ghost clauses = { λ b. half_of b.end };

    fn count(&self) -> usize {
        self.end.values()
    }

    fn length(&self, i: usize) -> usize {
        // 0 for what is missing, by the interface, here and below
        // `as_ref`, since the check takes no value that holds both references and a type with a model into a closure
        self.clause(i).as_ref().map_or(0, |clause| clause.length())
    }

    fn literal(&self, i: usize, j: usize) -> u32 {
        self.clause(i)
            .as_ref()
            .and_then(|clause| clause.literal(j))
            .map_or(0, u32::from)
    }
}
