ghost use Rattle.std.specs.Prelude.{◌≡◌, ℕ, [], IfOk, slice_index_or};
ghost use Rattle.books.specs.Lists.{lists_of};

use crate::ClauseBook;
use std::alloc::{AllocError, Global};

// A list of clauses in memory is the book of these clauses.
impl<'a> ClauseBook for &'a [Vec<u32>] {
    ghost clauses = { λ s. lists_of s.now };

    fn count(&self) -> usize {
        self.len()
    }

    fn length(&self, i: usize) -> usize {
        // 0 for what is missing, by the interface, here and below
        self.get(i).map_or(0, |clause| clause.len())
    }

    fn literal(&self, i: usize, j: usize) -> u32 {
        self.get(i)
            .and_then(|clause| clause.get(j))
            .copied()
            .unwrap_or(0)
    }
}

// Clause i of a book as a list: empty where there is no clause i.
fn to_list<B: ClauseBook>(heap: Global, book: &B, i: usize) -> Result<Vec<u32>, AllocError>
    ensures { IfOk result (λ c. c.items ≡ slice_index_or (B.clauses book.now) i []) }
{
    (0..book.length(i))
        .map(|j| book.literal(i, j))
        .collect(heap)
}

// The clauses of a book as lists, in order.
pub fn to_lists<B: ClauseBook>(heap: Global, book: &B) -> Result<Vec<Vec<u32>>, AllocError>
    ensures { IfOk result (λ v. lists_of v.items ≡ B.clauses book.now) }
{
    (0..book.count())
        .map(|i| to_list(heap, book, i))
        .try_collect(heap)
}
