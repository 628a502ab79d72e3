ghost use Rattle.std.specs.Prelude.{◌≡◌, ℕ, ◌^◌, ◌<◌, ◌≤◌, List, length, Some};
ghost use Rattle.theory.specs.Encodings.{score, scores as scores_of};
ghost use Rattle.books.specs.Stored.{IsStored, clauses_of};
ghost use Rattle.books.specs.Halves.{book_end, better_of, Better};
ghost use Rattle.books.specs.Scores.{ScoresOf};
ghost use Rattle.books.specs.Texts.{scores_text};

use crate::{ClauseBook, StoredBook, WordsRefusal};
use std::fmt;
use theory::Side;

// A half as it lies in the caller's words, from word 0 to its end.
#[derive(Clone, Copy)]
pub struct Half<'a> {
    pub side: Side,
    // a part of the caller's words, by a rule of the project: the better half is answered where it lies
    pub words: &'a [u32],
}

// The sums of the scores of a table's two halves, and the side of the better one: the lower on equal sums.
#[derive(Clone, Copy, Debug, PartialEq, Eq)]
pub struct HalfScores {
    pub better: Side,
    pub lower: usize,
    pub higher: usize,
}

impl fmt::Display for HalfScores {
    ghost output = { λ scores. Some (scores_text scores.better scores.lower scores.higher) };

    fn fmt<W: fmt::Write>(&self, f: &mut fmt::Formatter<W>) -> fmt::Result {
        write!(f, "{} {} {}", self.better, self.lower, self.higher)
    }
}

// The score of a clause of so many literals.
fn score(literals: usize) -> usize
    ensures value { result ≡ score literals }
    ensures bound { result ≤ 16 }
{
    match literals {
        1 => 16,
        2 => 4,
        3 => 1,
        _ => 0,
    }
}

// The sum of the scores of a book's clauses.
pub fn score_sum<B: ClauseBook>(book: &B) -> usize
    requires { length (B.clauses book.now) < 2 ^ 32 }
    ensures { result ≡ scores_of (B.clauses book.now) }
{
    (0..book.count()).map(|i| score(book.length(i))).sum()
}

// The sums of the scores of two halves, and the side of the better one: the lower on equal sums.
pub fn scores<B: ClauseBook>(low: &B, high: &B) -> HalfScores
    requires low { length (B.clauses low.now) < 2 ^ 32 }
    requires high { length (B.clauses high.now) < 2 ^ 32 }
    ensures { ScoresOf (B.clauses low.now) (B.clauses high.now) result }
{
    let lower = score_sum(low);
    let higher = score_sum(high);
    let better = if lower < higher {
        Side::Higher
    } else {
        Side::Lower
    };
    HalfScores {
        better,
        lower,
        higher,
    }
}

// The better of two stored halves, as a part of the words that hold it: the lower on equal sums.
pub fn better<'a>(low: &'a [u32], high: &'a [u32]) -> Result<Half<'a>, WordsRefusal>
    ensures { Better low.now high.now result }
{
    let lower = StoredBook::new(low)?;
    let higher = StoredBook::new(high)?;
    let side = scores(&lower, &higher).better;
    // a match: there are just these two sides
    let words = match side {
        Side::Lower => &low[..lower.end()],
        Side::Higher => &high[..higher.end()],
    };
    Ok(Half { side, words })
}
