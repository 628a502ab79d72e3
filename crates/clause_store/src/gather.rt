ghost use Rattle.std.specs.Prelude.{◌≡◌, [], ◌++◌, IfOk, MatchBool, OnOk, slice_index_or};
ghost use Rattle.clause_store.specs.Storage.{flat_of};
ghost use Rattle.clause_store.specs.Fitness.{NamesValue, FitClause};
ghost use Rattle.clause_store.specs.Refusals.{HoldsExactly, FitsExactly};

use crate::error::OpenError;
use crate::flat::FlatClauses;
use books::ClauseBook;
use literals::Literal;
use std::alloc::Global;

// The most clauses of a list.
const MAX_CLAUSES: usize = 100000;

// The most literals of a clause.
const MAX_LITERALS: usize = 64;

// Whether a literal is of the value.
fn names_value(literals: &[Literal], value: usize) -> bool
    ensures { MatchBool result (NamesValue literals.now value) (NamesValue literals.now value → ⊥) }
{
    literals.iter().any(|literal| literal.value() == value)
}

// Adds the literals of clause i to a row, where the clause is fit: where it is not, some of them may stand there.
fn read_clause<B: ClauseBook>(
    book: &B,
    values: u32,
    i: usize,
    literals: &mut Vec<Literal>,
) -> Result<(), OpenError>
    ensures fit { HoldsExactly (FitClause values (slice_index_or (B.clauses book.now) i [])) result }
    ensures row { OnOk result (literals.new.items ≡ literals.old.items ++ slice_index_or (B.clauses book.now) i []) }
{
    let size = book.length(i);
    if size == 0 || size > MAX_LITERALS {
        return Err(OpenError::Unfit);
    }
    let start = literals.len();
    // a `for`: a clause that is not fit is refused before more of it is in memory
    for j in 0..size {
        let literal = Literal::from(book.literal(i, j));
        let value = literal.value();
        if value >= values as usize || names_value(&literals[start..], value) {
            return Err(OpenError::Unfit);
        }
        literals.push(literal)?;
    }
    Ok(())
}

// The clauses of a book that is fit.
pub(crate) fn gather<B: ClauseBook>(
    heap: Global,
    book: &B,
    values: u32,
) -> Result<FlatClauses, OpenError>
    ensures fit { FitsExactly values (B.clauses book.now) result }
    ensures clauses { IfOk result (λ f. flat_of f ≡ B.clauses book.now) }
{
    let count = book.count();
    if count > MAX_CLAUSES {
        return Err(OpenError::Unfit);
    }
    let mut literals = Vec::new(heap);
    let mut starts = Vec::new(heap);
    starts.push(0)?;
    // beside `books::to_lists`, since each clause is tested as it is read
    for i in 0..count {
        read_clause(book, values, i, &mut literals)?;
        starts.push(literals.len())?;
    }
    // a session keeps them as long as it lives, so the room that is left over goes back
    literals.shrink_to_fit();
    starts.shrink_to_fit();
    Ok(FlatClauses { literals, starts })
}
