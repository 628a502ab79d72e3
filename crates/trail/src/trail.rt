ghost use Rattle.std.specs.Prelude.{vec_capacity};
ghost use Rattle.trail.specs.Marked.{Marked};

use literals::Literal;
use theory::Mark;

mod changes;
mod makes;
mod reads;

// Literals that are held, in the order in which they were reached, and the mark of each value by them.
#[derive(Drop)]
pub struct Trail {
    marks: Vec<Mark>,
    literals: Vec<Literal>,
    ghost ok: { ∥ Marked (vec_capacity literals) literals.items marks.items ∥₁ },
}
