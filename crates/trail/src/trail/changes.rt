ghost use Rattle.std.specs.Prelude.{◌≡◌, ◌*◌, ◌<◌, ◌≤◌, [], ◌∷◌, ◌++◌, length, take};
ghost use Rattle.trail.specs.Parts.{literals_of, values_of};
ghost use Rattle.trail.specs.Truths.{truth_of};

use super::Trail;
use literals::Literal;
use theory::Mark;

impl Trail {
    // Adds a literal of which the trail says nothing.
    pub fn push(&mut self, literal: Literal)
        requires within { literal < 2 * values_of self.old }
        requires fresh { truth_of (literals_of self.old) literal ≡ None }
        ensures values { values_of self.new ≡ values_of self.old }
        ensures literals { literals_of self.new ≡ literals_of self.old ++ literal ∷ [] }
    {
        self.literals.push_reserved(literal);
        self.marks[literal.value()] = literal.mark();
    }

    // Goes back to the first `height` literals.
    pub fn cut(&mut self, height: usize)
        requires { height ≤ length (literals_of self.old) }
        ensures values { values_of self.new ≡ values_of self.old }
        ensures literals { literals_of self.new ≡ take height (literals_of self.old) }
    {
        let Trail { marks, literals } = self;
        for literal in &literals[height..] {
            marks[literal.value()] = Mark::Open;
        }
        literals.truncate(height);
    }
}
