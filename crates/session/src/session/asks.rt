ghost use Rattle.std.specs.Prelude.{◌≡◌, IfOk, Some, Ok, Err, MatchResult};
ghost use Rattle.theory.specs.Numbering.{number};
ghost use Rattle.propagator.specs.States.{state_of as inner_of, known_mark};
ghost use Rattle.calls.specs.States.{counts_of, is_clashed, has_value, mark_at};
ghost use Rattle.calls.specs.Replies.{checked, mark_reply, left_reply, value_reply, decisions_reply, clash_reply};
ghost use Rattle.session.specs.Sessions.{state_of, marks_reply};

use super::Session;
use calls::CallRefusal;
use network::{Point, numbering};
use theory::Mark;

impl Session {
    // The points, in order: none before the session is opened.
    pub fn points(&self) -> &[Point]
        ensures { result.now ≡ self.now.points.items }
    {
        &self.points
    }

    // How many decisions stand.
    pub fn decisions(&self) -> usize
        ensures { result ≡ decisions_reply (state_of self.now) }
    {
        self.inner.count()
    }

    // Whether there is a clash.
    pub fn has_clash(&self) -> bool
        ensures { result ≡ clash_reply (state_of self.now) }
    {
        self.inner.has_clash()
    }

    // The number of a value that is there, and its mark, where there is no clash.
    pub(super) fn find(&self, point: usize, value: usize) -> Result<(usize, Mark), CallRefusal>
        ensures answer { result ≡ checked (has_value (state_of self.now) point value) (is_clashed (state_of self.now)) (Ok (number (counts_of (state_of self.now)) point value, mark_at (state_of self.now) point value)) }
        ensures known { IfOk result (λ found. known_mark (inner_of self.now.inner) found.0 ≡ Some found.1) }
    {
        let n = numbering::number(&self.points, point, value).ok_or(CallRefusal::NoSuch)?;
        let mark = self.inner.mark(n).ok_or(CallRefusal::Clashed)?;
        Ok((n, mark))
    }

    // The mark of a value.
    pub fn mark(&self, point: usize, value: usize) -> Result<Mark, CallRefusal>
        ensures { result ≡ mark_reply (state_of self.now) point value }
    {
        let (_, mark) = self.find(point, value)?;
        Ok(mark)
    }

    // The marks of a point's values, in order.
    pub fn marks(&self, point: usize) -> Result<&[Mark], CallRefusal>
        ensures { MatchResult result (λ m. marks_reply (state_of self.now) point ≡ Ok m.now) (λ e. marks_reply (state_of self.now) point ≡ Err e) }
    {
        if point >= self.points.len() {
            return Err(CallRefusal::NoSuch);
        }
        let marks = self.inner.marks().ok_or(CallRefusal::Clashed)?;
        let first = numbering::offset(&self.points, point);
        let count = numbering::count(&self.points, point);
        Ok(&marks[first..first + count])
    }

    // How many values of a point are not out.
    pub fn left(&self, point: usize) -> Result<usize, CallRefusal>
        ensures { result ≡ left_reply (state_of self.now) point }
    {
        let marks = self.marks(point)?;
        Ok(marks.iter().filter(|mark| **mark != Mark::Out).count())
    }

    // The value of a point that is in, the lowest of several; nothing where none is.
    pub fn value(&self, point: usize) -> Result<Option<usize>, CallRefusal>
        ensures { result ≡ value_reply (state_of self.now) point }
    {
        let marks = self.marks(point)?;
        Ok(marks.iter().position(|mark| *mark == Mark::In))
    }
}
