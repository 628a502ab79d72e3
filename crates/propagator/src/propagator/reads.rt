ghost use Rattle.std.specs.Prelude.{◌≡◌, ◌<◌, length, Some, None, MatchOption};
ghost use Rattle.propagator.specs.States.{state_of, has_clash, known_mark, known_marks, SomeOpen};

use super::Propagator;
use theory::Mark;

impl Propagator {
    // How many values there are.
    pub fn values(&self) -> usize
        ensures { result ≡ (state_of self.now).values }
    {
        self.store.values()
    }

    // How many decisions stand: fewer than values while a value is open.
    pub fn count(&self) -> usize
        ensures answer { result ≡ length (state_of self.now).decisions }
        ensures few { SomeOpen (state_of self.now) → result < (state_of self.now).values }
    {
        self.decisions.len()
    }

    // Whether there is a clash.
    pub fn has_clash(&self) -> bool
        ensures { result ≡ has_clash (state_of self.now) }
    {
        self.clashed
    }

    // The marks of all values, in order: nothing in a clash.
    pub fn marks(&self) -> Option<&[Mark]>
        ensures { MatchOption result (known_marks (state_of self.now) ≡ None) (λ m. known_marks (state_of self.now) ≡ Some m.now) }
    {
        if self.clashed {
            return None;
        }
        Some(self.trail.marks())
    }

    // The mark of a value: nothing in a clash, and nothing where there is no such value.
    pub fn mark(&self, n: usize) -> Option<Mark>
        ensures { result ≡ known_mark (state_of self.now) n }
    {
        self.marks()?.get(n).copied()
    }
}
