ghost use Rattle.std.specs.Prelude.{◌≡◌, IfOk, MatchResult, string_bytes};
ghost use Rattle.calls.specs.Refusals.{number_of};
ghost use Rattle.theory.specs.Names.{refusal_text};
ghost use Rattle.session_commands.specs.AnswerTexts.{value_text, clash_text, answer_text};

use calls::{CallRefusal, Exchange};
use std::alloc::{AllocError, Global};

// What is shown of an answer, or the refusal in its place.
fn or_refused<T, F: FnOnce(T) -> Result<String, AllocError>>(
    heap: Global,
    reply: Result<T, CallRefusal>,
    show: F,
) -> Result<String, AllocError>
    requires { F.IsAlwaysCallable show }
    ensures { MatchResult reply (λ x. F.post show x result) (λ e. IfOk result (λ s. string_bytes s ≡ refusal_text (number_of e))) }
{
    match reply {
        Ok(answered) => show(answered),
        Err(refusal) => refusal.to_string(heap),
    }
}

// `value` and `clash` are functions and no `Display`: `Option` and `bool` are of the standard library.
// The value of a point, or that it has none.
fn value(heap: Global, found: Option<usize>) -> Result<String, AllocError>
    ensures { IfOk result (λ s. string_bytes s ≡ value_text found) }
{
    match found {
        Some(v) => v.to_string(heap),
        None => String::from_str(heap, "none"),
    }
}

// Whether there is a clash.
fn clash(heap: Global, clashed: bool) -> Result<String, AllocError>
    ensures { IfOk result (λ s. string_bytes s ≡ clash_text clashed) }
{
    String::from_str(heap, if clashed { "yes" } else { "no" })
}

// What is written for the answer to a call.
pub fn answer(heap: Global, exchange: Exchange) -> Result<String, AllocError>
    ensures { IfOk result (λ s. string_bytes s ≡ answer_text exchange) }
{
    match exchange {
        Exchange::Choose(_, _, reply) | Exchange::Bar(_, _, reply) => {
            or_refused(heap, reply, |decided| decided.to_string(heap))
        }
        Exchange::Withdraw(reply) => or_refused(heap, reply, |()| String::from_str(heap, "done")),
        Exchange::Mark(_, _, reply) => or_refused(heap, reply, |mark| mark.to_string(heap)),
        Exchange::Left(_, reply) => or_refused(heap, reply, |count| count.to_string(heap)),
        Exchange::Value(_, reply) => or_refused(heap, reply, |found| value(heap, found)),
        Exchange::Decisions(count) => count.to_string(heap),
        Exchange::Clash(clashed) => clash(heap, clashed),
    }
}
