ghost use Rattle.std.specs.Prelude.{◌≡◌, List, ◌++◌, map, IfOk, OnOk};
ghost use Rattle.theory.specs.Numbering.{total};
ghost use Rattle.clause_store.specs.Refusals.{FitsExactly};
ghost use Rattle.calls.specs.declared.call.Exchange.{Exchange};
ghost use Rattle.calls.specs.Promise.{Promise};
ghost use Rattle.calls.specs.Runs.{call_of};
ghost use Rattle.network.specs.Points.{points_of, counts_of};

use crate::Caller;
use books::ClauseBook;
use calls::{Call, Exchange};
use clause_store::OpenError;
use network::PointList;
use session::Session;
use std::alloc::Global;

// Opens a session over points and a clause book, and makes the calls of a caller, to the last one.
pub fn play<B: ClauseBook, C: Caller>(
    heap: Global,
    points: &PointList,
    book: &B,
    caller: &mut C,
) -> Result<(), OpenError>
    ensures fit { FitsExactly (total (counts_of points.now)) (B.clauses book.now) result }
    ensures promise { OnOk result ((xs : List Exchange) → C.heard caller.old xs → (ys : List Exchange) × C.finished caller.new (xs ++ ys) × Promise (points_of points.now) (B.clauses book.now) ys) }
{
    let mut session = Session::new(heap);
    session.open(heap, points, book)?;
    // no `for`: the caller sees the session between two calls
    while let Some(call) = caller.next(&session) {
        let exchange = session.perform(call);
        caller.answered(exchange);
    }
    Ok(())
}

// Opens a session over points and a clause book, makes these calls in their order, and answers each with what it got.
pub fn play_all<B: ClauseBook>(
    heap: Global,
    points: &PointList,
    book: &B,
    calls: &[Call],
) -> Result<Vec<Exchange>, OpenError>
    ensures fit { FitsExactly (total (counts_of points.now)) (B.clauses book.now) result }
    ensures calls { IfOk result (λ v. map call_of v.items ≡ calls.now) }
    ensures promise { IfOk result (λ v. Promise (points_of points.now) (B.clauses book.now) v.items) }
{
    // reserved before the session is opened, and filled by a `for`, so that no call is made whose answer could not be kept
    let mut log = Vec::with_capacity(heap, calls.len())?;
    let mut session = Session::new(heap);
    session.open(heap, points, book)?;
    for call in calls {
        log.push_reserved(session.perform(*call));
    }
    Ok(log)
}
