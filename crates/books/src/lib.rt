// Clause books: lists of clauses behind one interface.
#![tactic(auto)]

mod book;
mod halves;
mod lists;
mod refusal;
mod stored;
mod storing;

pub use book::{ClauseBook, FaithfulBook};
pub use halves::{Half, HalfScores, better, score_sum, scores};
pub use lists::to_lists;
pub use refusal::{HalvesRefusal, WordsRefusal};
pub use stored::StoredBook;
pub use storing::{store, store_both, words_needed};
