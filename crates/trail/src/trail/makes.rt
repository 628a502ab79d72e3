ghost use Rattle.std.specs.Prelude.{◌≡◌, [], IfOk};
ghost use Rattle.trail.specs.Parts.{literals_of, values_of};

use super::Trail;
use std::alloc::{AllocError, Global};
use theory::Mark;

impl Trail {
    // The trail of so many values that holds no literal.
    pub fn new(heap: Global, values: usize) -> Result<Trail, AllocError>
        ensures values { IfOk result (λ t. values_of t ≡ values) }
        ensures literals { IfOk result (λ t. literals_of t ≡ []) }
    {
        let literals = Vec::with_capacity(heap, values)?;
        let marks = Vec::from_elem(heap, Mark::Open, values)?;
        Ok(Trail { marks, literals })
    }

    // The trail of no value.
    pub fn empty(heap: Global) -> Trail
        ensures values { values_of result ≡ 0 }
        ensures literals { literals_of result ≡ [] }
    {
        Trail {
            marks: Vec::new(heap),
            literals: Vec::new(heap),
        }
    }
}
