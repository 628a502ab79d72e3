ghost use Rattle.std.specs.Prelude.{◌≡◌, ◌/◌, Some, OnErr};
ghost use Rattle.theory.specs.declared.Mark.TheVariants.{Open};
ghost use Rattle.theory.specs.Literals.{is_in, is_out};
ghost use Rattle.theory.specs.Numbering.{number};
ghost use Rattle.propagator.specs.States.{state_of as inner_of, known_mark};
ghost use Rattle.calls.specs.States.{counts_of, under};
ghost use Rattle.calls.specs.Replies.{decide_reply, choose_reply, bar_reply, withdraw_reply};
ghost use Rattle.calls.specs.Runs.{after_decided, after_withdrawn};
ghost use Rattle.session.specs.Sessions.{state_of};

use super::Session;
use calls::{CallRefusal, Decided, MAX_DECISIONS};
use literals::Literal;
use theory::Mark;

impl Session {
    // Decides a literal of an open value.
    fn decide(&mut self, literal: Literal) -> Result<Decided, CallRefusal>
        requires { known_mark (inner_of self.old.inner) (literal / 2) ≡ Some Open }
        ensures answer { result ≡ decide_reply (state_of self.old) literal }
        ensures state { state_of self.new ≡ under (state_of self.old) (after_decided (state_of self.old).decisions literal result) }
        ensures kept { OnErr result (self.new ≡ self.old) }
    {
        if self.inner.count() >= MAX_DECISIONS {
            return Err(CallRefusal::TooMany);
        }
        self.inner.decide(literal);
        if self.inner.has_clash() {
            Ok(Decided::Clash)
        } else {
            Ok(Decided::Taken)
        }
    }

    // That a refusal leaves the session as it was (`kept`) is a promise of each call.
    // Chooses a value: it is in, and what follows is marked.
    pub fn choose(&mut self, point: usize, value: usize) -> Result<Decided, CallRefusal>
        ensures answer { result ≡ choose_reply (state_of self.old) point value }
        ensures state { state_of self.new ≡ under (state_of self.old) (after_decided (state_of self.old).decisions (is_in (number (counts_of (state_of self.old)) point value)) result) }
        ensures kept { OnErr result (self.new ≡ self.old) }
    {
        // `choose` and `bar` stay two: a function of the wanted mark would need its literal and its refusal as well
        let (n, mark) = self.find(point, value)?;
        match mark {
            Mark::In => Ok(Decided::Already),
            Mark::Out => Err(CallRefusal::MarkedOut),
            Mark::Open => self.decide(Literal::is_in(n)),
        }
    }

    // Bars a value: it is out, and what follows is marked.
    pub fn bar(&mut self, point: usize, value: usize) -> Result<Decided, CallRefusal>
        ensures answer { result ≡ bar_reply (state_of self.old) point value }
        ensures state { state_of self.new ≡ under (state_of self.old) (after_decided (state_of self.old).decisions (is_out (number (counts_of (state_of self.old)) point value)) result) }
        ensures kept { OnErr result (self.new ≡ self.old) }
    {
        let (n, mark) = self.find(point, value)?;
        match mark {
            Mark::In => Err(CallRefusal::MarkedIn),
            Mark::Out => Ok(Decided::Already),
            Mark::Open => self.decide(Literal::is_out(n)),
        }
    }

    // Takes the latest standing decision back, with all that followed from it.
    pub fn withdraw(&mut self) -> Result<(), CallRefusal>
        ensures answer { result ≡ withdraw_reply (state_of self.old) }
        ensures state { state_of self.new ≡ under (state_of self.old) (after_withdrawn (state_of self.old).decisions result) }
        ensures kept { OnErr result (self.new ≡ self.old) }
    {
        if self.inner.withdraw() {
            Ok(())
        } else {
            Err(CallRefusal::NothingToWithdraw)
        }
    }
}
