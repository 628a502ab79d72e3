ghost use Rattle.std.specs.Prelude.{◌≡◌, ◌/◌, false, length, Some, nat_lt};
ghost use Rattle.theory.specs.declared.Mark.TheVariants.{Open};
ghost use Rattle.propagator.specs.States.{state_of, known_mark, with_decision, without_last};

use super::{Decision, Propagator};
use literals::Literal;
use propagation::propagate;

impl Propagator {
    // Adds the decision for a literal of an open value, with all that follows.
    pub fn decide(&mut self, literal: Literal)
        requires { known_mark (state_of self.old) (literal / 2) ≡ Some Open }
        ensures { state_of self.new ≡ with_decision (state_of self.old) literal }
    {
        let height = self.trail.len();
        self.decisions.push_reserved(Decision { literal, height });
        self.trail.push(literal);
        self.clashed = propagate(&self.store, &mut self.trail, height).is_err();
    }

    // Takes the last decision back, with all that followed from it; says whether there was one.
    pub fn withdraw(&mut self) -> bool
        ensures answer { result ≡ nat_lt 0 (length (state_of self.old).decisions) }
        ensures state { state_of self.new ≡ without_last (state_of self.old) }
        ensures kept { result ≡ false → self.new ≡ self.old }
    {
        // a bool, since nothing else is asked of it; tested before, since `Vec::pop` does not say that an empty vector stays the same, as `kept` does
        if self.decisions.is_empty() {
            return false;
        }
        let Decision { height, .. } = self.decisions.pop().unwrap();
        self.trail.cut(height);
        self.clashed = false;
        true
    }
}
