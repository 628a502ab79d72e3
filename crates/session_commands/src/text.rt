ghost use Rattle.std.specs.Prelude.{◌≡◌, IfOk, string_bytes};
ghost use Rattle.theory.specs.Names.{refusal_text};
ghost use Rattle.books.specs.Texts.{scores_text};

use books::HalfScores;
pub use commands::text::{clauses, place, refused};
use std::alloc::{AllocError, Global};

// The number of a refusal that has no place, for any number; of a refusal at hand it is what the refusal displays.
pub fn refused_call(heap: Global, number: u8) -> Result<String, AllocError>
    ensures { IfOk result (λ s. string_bytes s ≡ refusal_text number) }
{
    format!(in heap; "refused {number}")
}

// The better half of a table, and the sums of the lower and of the higher half.
pub fn half(heap: Global, scores: HalfScores) -> Result<String, AllocError>
    ensures { IfOk result (λ s. string_bytes s ≡ scores_text scores.better scores.lower scores.higher) }
{
    let better = scores.better;
    let lower = scores.lower;
    let higher = scores.higher;
    format!(in heap; "{better} {lower} {higher}")
}
