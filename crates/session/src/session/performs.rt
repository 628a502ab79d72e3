ghost use Rattle.std.specs.Prelude.{◌≡◌};
ghost use Rattle.calls.specs.States.{counts_of, under};
ghost use Rattle.calls.specs.Runs.{call_of, stands_after, Right};
ghost use Rattle.session.specs.Sessions.{state_of};

use super::Session;
use calls::{Call, Exchange};

impl Session {
    // Makes a call.
    pub fn perform(&mut self, call: Call) -> Exchange
        ensures call { call_of result ≡ call }
        ensures answer { Right (state_of self.old) result }
        ensures state { state_of self.new ≡ under (state_of self.old) (stands_after (counts_of (state_of self.old)) (state_of self.old).decisions result) }
    {
        match call {
            Call::Choose(p, v) => Exchange::Choose(p, v, self.choose(p, v)),
            Call::Bar(p, v) => Exchange::Bar(p, v, self.bar(p, v)),
            Call::Withdraw => Exchange::Withdraw(self.withdraw()),
            Call::Mark(p, v) => Exchange::Mark(p, v, self.mark(p, v)),
            Call::Left(p) => Exchange::Left(p, self.left(p)),
            Call::Value(p) => Exchange::Value(p, self.value(p)),
            Call::Decisions => Exchange::Decisions(self.decisions()),
            Call::Clash => Exchange::Clash(self.has_clash()),
        }
    }
}
