ghost use Rattle.std.specs.Prelude.{◌≡◌, [], ◌++◌, IfOk, string_bytes, OnOk, slice_index_or};
ghost use Rattle.std.specs.List.{flat_map};
ghost use Rattle.commands.specs.Texts.{place_text, refused_text, clause_text, clauses_text};

use books::ClauseBook;
use std::alloc::{AllocError, Global};
use std::fmt::Write;

// `place` is a function and no `Display`: `Option` is the standard library's.
// A point and a value, or that there is none.
pub fn place(heap: Global, found: Option<(usize, usize)>) -> Result<String, AllocError>
    ensures { IfOk result (λ s. string_bytes s ≡ place_text found) }
{
    match found {
        Some((p, v)) => format!(in heap; "{p} {v}"),
        None => String::from_str(heap, "none"),
    }
}

// A refusal's number and place, for any number; of a fault at hand it is what the fault displays.
pub fn refused(heap: Global, number: u8, place: usize) -> Result<String, AllocError>
    ensures { IfOk result (λ s. string_bytes s ≡ refused_text number place) }
{
    format!(in heap; "refused {number} at {place}")
}

// Adds a line for clause i, its literals one space apart.
fn push_clause<B: ClauseBook>(out: &mut String, book: &B, i: usize) -> Result<(), AllocError>
    ensures { OnOk result (string_bytes out.new ≡ string_bytes out.old ++ clause_text (slice_index_or (B.clauses book.now) i [])) }
{
    // a `for`: each write may fail
    for j in 0..book.length(i) {
        let separator = if j == 0 { "" } else { " " };
        let literal = book.literal(i, j);
        write!(out, "{separator}{literal}")?;
    }
    writeln!(out)
}

// Adds a line for each clause of a book.
pub(crate) fn push_clauses<B: ClauseBook>(out: &mut String, book: &B) -> Result<(), AllocError>
    ensures { OnOk result (string_bytes out.new ≡ string_bytes out.old ++ flat_map clause_text (B.clauses book.now)) }
{
    // a `for`: each line may fail
    for i in 0..book.count() {
        push_clause(out, book, i)?;
    }
    Ok(())
}

// How many clauses a book has, and then a line a clause.
pub fn clauses<B: ClauseBook>(heap: Global, book: &B) -> Result<String, AllocError>
    ensures { IfOk result (λ s. string_bytes s ≡ clauses_text (B.clauses book.now)) }
{
    let count = book.count();
    let mut out = format!(in heap; "{count}\n")?;
    push_clauses(&mut out, book)?;
    Ok(out)
}
