ghost use Rattle.std.specs.Prelude.{◌≡◌, length, slice_get};
ghost use Rattle.std.specs.Option.{option_map};
ghost use Rattle.theory.specs.Encodings.{at_most_one, clauses};
ghost use Rattle.network.specs.Contents.{meaning};
ghost use Rattle.computed.specs.Ids.{clause_of};
ghost use Rattle.computed.specs.Sizes.{Sized};

use crate::id::ClauseId;
use crate::{point_pairs, sizes};
use books::{ClauseBook, FaithfulBook};
use network::{MAX_TABLES, Network};
use theory::Encoding;

// The clauses of a network in an encoding, found as they are asked for.
#[derive(Clone, Copy)]
pub struct ComputedBook<'a> {
    pub(crate) network: &'a Network,
    pub(crate) encoding: Encoding,
    // how many clauses each table has; an array, since a book is made with no memory from the heap and cannot fail
    pub(crate) sizes: [u16; MAX_TABLES],
    // how many at-most-one clauses the points have: kept, since each literal that is asked for is looked for behind them
    pub(crate) pairs: u16,
    ghost sized: { Sized encoding (meaning network.now) sizes },
    ghost paired: { pairs ≡ length (at_most_one (meaning network.now).counts) },
}

impl<'a> ComputedBook<'a> {
    // The book of a network in an encoding.
    pub fn new(network: &'a Network, encoding: Encoding) -> ComputedBook<'a>
        ensures network { result.network.now ≡ network.now }
        ensures encoding { result.encoding ≡ encoding }
    {
        let sizes = sizes::sizes(network, encoding);
        let pairs = point_pairs::at_most_one_count(network.points()) as u16;
        ComputedBook {
            network,
            encoding,
            sizes,
            pairs,
        }
    }

    // Which clause stands at the place i.
    fn locate(&self, i: usize) -> Option<ClauseId<'a>>
        ensures { option_map clause_of result ≡ slice_get (clauses self.now.encoding (meaning self.now.network.now)) i }
    {
        let points = self.network.points();
        let some = points.len();
        if i < some {
            return Some(ClauseId::SomeOf { points, point: i });
        }
        let pairs = self.pairs as usize;
        if i - some < pairs {
            return point_pairs::at_most_one(points, i - some);
        }
        self.table_clause(i - some - pairs)
    }
}

impl<'a> ClauseBook for ComputedBook<'a> {
    ghost clauses = { λ b. clauses b.encoding (meaning b.network.now) };

    fn count(&self) -> usize {
        self.network.points().len() + self.pairs as usize + self.table_clause_count()
    }

    fn length(&self, i: usize) -> usize {
        // 0 for what is missing, by the interface, here and below
        // `as_ref`, since the check takes no value that holds both references and a type with a model into a closure; the two bodies are
        // those of a half's book, which finds its clause otherwise
        self.locate(i).as_ref().map_or(0, |clause| clause.length())
    }

    fn literal(&self, i: usize, j: usize) -> u32 {
        self.locate(i)
            .as_ref()
            .and_then(|clause| clause.literal(j))
            .map_or(0, u32::from)
    }
}

impl<'a> FaithfulBook for ComputedBook<'a> {
    ghost network = { λ b. meaning b.network.now };

    fn value_count(&self, point: usize) -> usize {
        self.network.points().count(point)
    }
}
