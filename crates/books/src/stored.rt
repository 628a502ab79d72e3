ghost use Rattle.std.specs.Prelude.{◌≡◌, ◌≤◌, List, [], length, Decides, MatchResult, slice_index};
ghost use Rattle.books.specs.Stored.{count_of, clauses_of, start_of, IsStored};
ghost use Rattle.books.specs.declared.refusal.WordsRefusal.TheVariants.{NotStored};

use crate::{ClauseBook, WordsRefusal};

// A book in the caller's words.
#[derive(Clone, Copy)]
pub struct StoredBook<'a> {
    // the caller's words: a stored book is read where it lies
    words: &'a [u32],
    ghost stored: { IsStored words.now },
}

// A word, or 0 where there is none.
fn word(words: &[u32], i: usize) -> usize
    ensures { result ≡ slice_index words.now i }
{
    // 0 for a word that is missing, as the definition of a stored book reads it
    words.get(i).map_or(0, |word| *word as usize)
}

// The place of the first literal of clause i.
fn start(words: &[u32], i: usize) -> usize
    ensures { result ≡ start_of words.now i }
{
    if i == 0 {
        word(words, 0) + 1
    } else {
        word(words, i)
    }
}

// Whether words are a stored book.
fn is_stored(words: &[u32]) -> bool
    ensures { Decides result (IsStored words.now) }
{
    let count = word(words, 0);
    count < words.len()
        && (0..count).all(|i| {
            let to = word(words, i + 1);
            start(words, i) <= to && to <= words.len()
        })
}

impl<'a> StoredBook<'a> {
    // The book that words are, or the refusal where they are none. Words behind its end are allowed.
    pub fn new(words: &'a [u32]) -> Result<StoredBook<'a>, WordsRefusal>
        ensures { MatchResult result (λ b. IsStored words.now × (b.words.now ≡ words.now)) (λ e. (e ≡ NotStored) × (IsStored words.now → ⊥)) }
    {
        if is_stored(words) {
            Ok(StoredBook { words })
        } else {
            Err(WordsRefusal::NotStored)
        }
    }

    // Where the book ends in its words.
    pub(crate) fn end(&self) -> usize
        ensures value { result ≡ start_of self.now.words.now (count_of self.now.words.now) }
        ensures within { result ≤ length self.now.words.now }
    {
        start(self.words, word(self.words, 0))
    }
}

impl<'a> ClauseBook for StoredBook<'a> {
    ghost clauses = { λ b. clauses_of b.words.now };

    fn count(&self) -> usize {
        word(self.words, 0)
    }

    fn length(&self, i: usize) -> usize {
        // 0 for what is missing, by the interface, here and below
        if i < self.count() {
            word(self.words, i + 1) - start(self.words, i)
        } else {
            0
        }
    }

    fn literal(&self, i: usize, j: usize) -> u32 {
        if j < self.length(i) {
            self.words[start(self.words, i) + j]
        } else {
            0
        }
    }
}
