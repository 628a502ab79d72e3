ghost use Rattle.std.specs.Prelude.{◌≡◌, ◌*◌, ◌<◌, map, length, slice_index};
ghost use Rattle.std.specs.List.{range_with_len};
ghost use Rattle.theory.specs.Marks.{mark_of};
ghost use Rattle.trail.specs.Parts.{literals_of, values_of};
ghost use Rattle.trail.specs.Truths.{truth_of};

use super::Trail;
use literals::Literal;
use theory::Mark;

impl Trail {
    // How many literals are held.
    pub fn len(&self) -> usize
        ensures { result ≡ length (literals_of self.now) }
    {
        self.literals.len()
    }

    // The literal at a place.
    pub fn literal(&self, k: usize) -> Literal
        requires { k < length (literals_of self.now) }
        ensures { result ≡ slice_index (literals_of self.now) k }
    {
        self.literals[k]
    }

    // The marks of all values, in order.
    pub fn marks(&self) -> &[Mark]
        ensures { result.now ≡ map (mark_of (literals_of self.now)) (range_with_len 0 (values_of self.now)) }
    {
        &self.marks
    }

    // Whether a literal is true: nothing where neither it nor its opposite is held.
    pub fn truth(&self, literal: Literal) -> Option<bool>
        ensures { result ≡ truth_of (literals_of self.now) literal }
    {
        let mark = self.marks.get(literal.value())?;
        literal.truth(*mark)
    }
}
