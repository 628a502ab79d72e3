ghost use Rattle.trail.specs.Parts.{literals_of};
ghost use Rattle.propagation.specs.Finds.{Finds};

use crate::Conflict;
use literals::Literal;
use trail::Trail;

// The literal that a clause forces and of which the trail says nothing: none where the trail holds all that it forces, and a conflict
// where all its literals are false.
pub(crate) fn scan(trail: &Trail, clause: &[Literal]) -> Result<Option<Literal>, Conflict>
    ensures { Finds (literals_of trail.now) clause.now result }
{
    let mut open = None;
    for literal in clause {
        match trail.truth(*literal) {
            Some(true) => return Ok(None),
            Some(false) => {}
            None if open.is_some_and(|other| other != *literal) => return Ok(None),
            None => open = Some(*literal),
        }
    }
    match open {
        None => Err(Conflict),
        Some(literal) => Ok(Some(literal)),
    }
}
