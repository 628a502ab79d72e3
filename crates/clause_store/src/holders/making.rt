ghost use Rattle.std.specs.Prelude.{◌≡◌, ℕ, ◌+◌, ◌<◌, ◌^◌, [], length, IfOk, slice_index, vec_len};
ghost use Rattle.std.specs.List.{sum_by};
ghost use Rattle.clause_store.specs.Storage.{held_of};

use super::Holders;
use std::alloc::{AllocError, Global};

impl Holders {
    // For each count a literal with room for as many numbers, and no number yet.
    pub(crate) fn with_room(heap: Global, counts: &[usize]) -> Result<Holders, AllocError>
        requires { sum_by (λ n. n) counts.now < 2 ^ 64 }
        ensures long { IfOk result (λ h. vec_len h.ends ≡ length counts.now) }
        ensures bare { IfOk result (λ h. (l : ℕ) → held_of h l ≡ []) }
        ensures room { IfOk result (λ h. (l : ℕ) → l < length counts.now → slice_index h.ends.items l + slice_index counts.now l ≡ slice_index h.starts.items (l + 1)) }
        ensures whole { IfOk result (λ h. vec_len h.row ≡ sum_by (λ n. n) counts.now) }
    {
        let mut starts = Vec::new(heap);
        let mut ends = Vec::new(heap);
        let mut total = 0;
        for count in counts {
            starts.push(total)?;
            ends.push(total)?;
            total += *count;
        }
        starts.push(total)?;
        let row = vec![in heap; 0usize; total]?;
        Ok(Holders { row, starts, ends })
    }

    // No literal, and so no number.
    pub(crate) fn empty(heap: Global) -> Holders
        ensures long { vec_len result.ends ≡ 0 }
        ensures bare { (l : ℕ) → held_of result l ≡ [] }
    {
        Holders {
            row: Vec::new(heap),
            starts: Vec::new(heap),
            ends: Vec::new(heap),
        }
    }
}
