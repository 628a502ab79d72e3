ghost use Rattle.std.specs.Prelude.{◌≡◌, ℕ, List, [], length, slice_index, slice_index_or};
ghost use Rattle.theory.specs.Faithful.{Faithful};
ghost use Rattle.theory.specs.Network.{Network};
ghost use Rattle.theory.specs.Numbering.{count as count_at};

// A list of clauses. Its calls refuse nothing and change nothing.
pub trait ClauseBook {
    // the list of clauses that the book means
    ghost clauses: { Self → List (List ℕ) };

    // How many clauses there are.
    fn count(&self) -> usize
        ensures { result ≡ length (clauses self.now) };

    // A book refuses nothing: 0 for what is missing is a part of the interface (docs/CLAUSES.md).
    // The length of clause i: 0 where there is no clause i.
    fn length(&self, i: usize) -> usize
        ensures { result ≡ length (slice_index_or (clauses self.now) i []) };

    // Literal j of clause i: 0 where there is none.
    fn literal(&self, i: usize, j: usize) -> u32
        ensures { result ≡ slice_index (slice_index_or (clauses self.now) i []) j };
}

// A clause book of a network, whose models are exactly the network's solutions.
pub trait FaithfulBook: ClauseBook {
    // the network whose solutions the models are
    ghost network: { Self → Network };

    // How many values the point has: 0 where there is no such point.
    fn value_count(&self, point: usize) -> usize
        ensures answer { result ≡ count_at (network self.now).counts point }
        ensures faithful { Faithful (network self.now) (Self.clauses self.now) };
}
