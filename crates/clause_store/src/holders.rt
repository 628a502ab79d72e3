ghost use Rattle.std.specs.Prelude.{ℕ, ◌+◌, ◌<◌, ◌≤◌, slice_index, vec_len};

mod adding;
mod making;
mod reads;

// For each literal the numbers of clauses, all in one row: where those of each literal start, with the end of the row behind, and where
// those that are there by now end. From there to the start of the next literal's is room for more.
#[derive(Drop)]
pub(crate) struct Holders {
    pub(crate) row: Vec<usize>,
    pub(crate) starts: Vec<usize>,
    pub(crate) ends: Vec<usize>,
    ghost bounded: { (l : ℕ) → l < vec_len ends → l + 1 < vec_len starts },
    ghost begun: { (l : ℕ) → l < vec_len ends → slice_index starts.items l ≤ slice_index ends.items l },
    ghost apart: { (l : ℕ) → l < vec_len ends → slice_index ends.items l ≤ slice_index starts.items (l + 1) },
    ghost inside: { (l : ℕ) → l < vec_len starts → slice_index starts.items l ≤ vec_len row },
}
