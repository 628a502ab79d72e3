ghost use Rattle.std.specs.Prelude.{◌≡◌};
ghost use Rattle.clause_store.specs.Storage.{held_of};

use super::Holders;
use literals::Literal;

impl Holders {
    // The numbers of a literal.
    pub(crate) fn of(&self, literal: Literal) -> &[usize]
        ensures { result.now ≡ held_of self.now literal }
    {
        let l = literal.index();
        if l < self.ends.len() {
            &self.row[self.starts[l]..self.ends[l]]
        } else {
            &[]
        }
    }
}
