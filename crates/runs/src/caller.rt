ghost use Rattle.std.specs.Prelude.{ℕ, ◌<◌, ◌≤◌, List, [], ◌∷◌, ◌++◌, MatchOption, OnSome};
ghost use Rattle.calls.specs.declared.call.Call.{Call};
ghost use Rattle.calls.specs.declared.call.Exchange.{Exchange};
ghost use Rattle.calls.specs.Runs.{call_of};

use calls::{Call, Exchange};
use session::Session;

// Whoever makes the calls of a session, one after another, and sees the session before each.
pub trait Caller {
    // the caller may have had these exchanges, and none is under way
    ghost heard: { Self → List Exchange → Type 0 };

    // the caller may have had these exchanges, and waits for the answer to this call
    ghost asking: { Self → List Exchange → Call → Type 0 };

    // the caller may have had these exchanges, and has no call more
    ghost finished: { Self → List Exchange → Type 0 };

    // at most how many calls are to come
    ghost left: { Self → ℕ };

    // The next call: nothing where there is none.
    fn next(&mut self, session: &Session) -> Option<Call>
        ensures told { (xs : List Exchange) → heard self.old xs → MatchOption result (finished self.new xs) (asking self.new xs) }
        ensures fewer { OnSome result (left self.new < left self.old) };

    // Takes the answer to the call.
    fn answered(&mut self, exchange: Exchange)
        ensures told { (xs : List Exchange) → asking self.old xs (call_of exchange) → heard self.new (xs ++ exchange ∷ []) }
        ensures no_more { left self.new ≤ left self.old };
}
