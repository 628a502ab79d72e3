ghost use Rattle.std.specs.Prelude.{◌≡◌, ℕ, ◌+◌, ◌^◌, ◌<◌, ◌≤◌, List, [], ◌∷◌, ◌++◌, length, take, drop, OnOk, MatchResult, slice_index_or};
ghost use Rattle.books.specs.declared.refusal.WordsRefusal.TheVariants.{TooFewWords};
ghost use Rattle.books.specs.Stored.{row, ends_from, words_needed};
ghost use Rattle.books.specs.Storing.{Stores, Holds, StoresBoth};

use crate::{ClauseBook, WordsRefusal};

// Books are stored in words of the caller, by a rule of the project: a writer takes no memory.
// How many words a book needs: one, one a clause and one a literal.
pub fn words_needed<B: ClauseBook>(book: &B) -> usize
    requires { words_needed (B.clauses book.now) < 2 ^ 32 }
    ensures { result ≡ words_needed (B.clauses book.now) }
{
    let count = book.count();
    1 + count + (0..count).map(|i| book.length(i)).sum::<usize>()
}

// Writes the literals of clause i from a place on.
fn write_clause<B: ClauseBook>(book: &B, i: usize, words: &mut [u32], place: usize)
    requires { place + length (slice_index_or (B.clauses book.now) i []) ≤ length words.old }
    ensures { words.new ≡ (take place words.old ++ slice_index_or (B.clauses book.now) i []) ++ drop (place + length (slice_index_or (B.clauses book.now) i [])) words.old }
{
    // by number: a book is asked by number and has no slice
    for j in 0..book.length(i) {
        words[place + j] = book.literal(i, j);
    }
}

// Writes the literals of all clauses behind the ends.
fn write_literals<B: ClauseBook>(book: &B, words: &mut [u32])
    requires { words_needed (B.clauses book.now) ≤ length words.old }
    ensures { words.new ≡ (take (length (B.clauses book.now) + 1) words.old ++ row (B.clauses book.now)) ++ drop (words_needed (B.clauses book.now)) words.old }
{
    let mut place = book.count() + 1;
    // by number: a book is asked by number and has no slice
    for i in 0..book.count() {
        write_clause(book, i, words, place);
        place += book.length(i);
    }
}

// Writes the clause count and where each clause ends.
fn write_ends<B: ClauseBook>(book: &B, words: &mut [u32])
    requires room { words_needed (B.clauses book.now) ≤ length words.old }
    requires small { words_needed (B.clauses book.now) < 2 ^ 32 }
    ensures { words.new ≡ (length (B.clauses book.now) ∷ ends_from (length (B.clauses book.now) + 1) (B.clauses book.now)) ++ drop (1 + length (B.clauses book.now)) words.old }
{
    words[0] = book.count() as u32;
    let mut end = book.count() + 1;
    // by number: a book is asked by number and has no slice
    for i in 0..book.count() {
        end += book.length(i);
        words[1 + i] = end as u32;
    }
}

// How many words a book needs, where there are as many.
fn room<B: ClauseBook>(book: &B, words: &[u32]) -> Result<usize, WordsRefusal>
    requires { words_needed (B.clauses book.now) < 2 ^ 32 }
    ensures { MatchResult result (λ n. (n ≡ words_needed (B.clauses book.now)) × (words_needed (B.clauses book.now) ≤ length words.now)) (λ e. (e ≡ TooFewWords (words_needed (B.clauses book.now))) × (length words.now < words_needed (B.clauses book.now))) }
{
    let needed = words_needed(book);
    if words.len() < needed {
        return Err(WordsRefusal::TooFewWords(needed));
    }
    Ok(needed)
}

// That a word can hold each end stands in each contract: it is a fact of no type, since a book of any size is a book.
// Stores a book in the caller's words, and answers how many it took.
pub fn store<B: ClauseBook>(book: &B, words: &mut [u32]) -> Result<usize, WordsRefusal>
    requires { words_needed (B.clauses book.now) < 2 ^ 32 }
    ensures answer { Stores (B.clauses book.now) words.old words.new result }
    ensures book { OnOk result (Holds (B.clauses book.now) words.new) }
{
    let needed = room(book, words)?;
    write_literals(book, words);
    write_ends(book, words);
    Ok(needed)
}

// Stores two books in two buffers of the caller, both or neither, and answers how many words each took.
pub fn store_both<B: ClauseBook>(
    first: &B,
    second: &B,
    low: &mut [u32],
    high: &mut [u32],
) -> Result<(usize, usize), WordsRefusal>
    requires one { words_needed (B.clauses first.now) < 2 ^ 32 }
    requires other { words_needed (B.clauses second.now) < 2 ^ 32 }
    ensures { StoresBoth (B.clauses first.now) (B.clauses second.now) low.old low.new high.old high.new result }
{
    let _ = room(first, low)?;
    let _ = room(second, high)?;
    let n = store(first, low)?;
    let m = store(second, high)?;
    Ok((n, m))
}
