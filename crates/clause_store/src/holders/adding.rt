ghost use Rattle.std.specs.Prelude.{◌≡◌, ℕ, ◌+◌, ◌<◌, ◌≤◌, [], ◌∷◌, ◌++◌, length, slice_index, slice_set, vec_len, ◌||◌, ◌&&◌, ◌==◌};
ghost use Rattle.theory.specs.Lists.{has};
ghost use Rattle.clause_store.specs.Index.{named, times};
ghost use Rattle.clause_store.specs.Storage.{held_of};

use super::Holders;
use literals::Literal;

impl Holders {
    // Names clause i behind the numbers of a literal.
    fn put(&mut self, literal: Literal, i: usize)
        requires literal { literal < vec_len self.old.ends }
        requires room { slice_index self.old.ends.items literal < slice_index self.old.starts.items (literal + 1) }
        ensures starts { self.new.starts ≡ self.old.starts }
        ensures row { vec_len self.new.row ≡ vec_len self.old.row }
        ensures ends { self.new.ends.items ≡ slice_set self.old.ends.items literal (slice_index self.old.ends.items literal + 1) }
        ensures held { (l : ℕ) → held_of self.new l ≡ held_of self.old l ++ named (literal ∷ []) l i }
    {
        let end = self.ends[literal.index()];
        self.row[end] = i;
        self.ends[literal.index()] = end + 1;
    }

    // Names clause i behind the numbers of each of its literals, once for each place.
    pub(crate) fn add(&mut self, clause: &[Literal], i: usize)
        requires literals { (k : ℕ) → k < length clause.now → slice_index clause.now k < vec_len self.old.ends }
        requires room { (l : ℕ) → l < vec_len self.old.ends → slice_index self.old.ends.items l + times clause.now l ≤ slice_index self.old.starts.items (l + 1) }
        ensures starts { self.new.starts ≡ self.old.starts }
        ensures row { vec_len self.new.row ≡ vec_len self.old.row }
        ensures many { vec_len self.new.ends ≡ vec_len self.old.ends }
        ensures ends { (l : ℕ) → l < vec_len self.old.ends → slice_index self.new.ends.items l ≡ slice_index self.old.ends.items l + times clause.now l }
        ensures exact { (l j : ℕ) → has (held_of self.new l) j ≡ (has (held_of self.old l) j || (has clause.now l && j == i)) }
        ensures once { (l : ℕ) → held_of self.new l ≡ held_of self.old l ++ named clause.now l i }
    {
        for literal in clause {
            self.put(*literal, i);
        }
    }
}
