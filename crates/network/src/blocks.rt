ghost use Rattle.std.specs.Prelude.{◌≡◌, ℕ, ◌<◌, List, length, slice_index};
ghost use Rattle.theory.specs.Numbering.{place};

// The block that item n of a row of blocks lies in, and its place there: nothing where the blocks have no more than n items.
// Block i has size(i) items.
pub fn locate<F: Fn(usize) -> usize>(blocks: usize, size: F, n: usize) -> Option<(usize, usize)>
    requires { (i : ℕ) → i < blocks → F.pre size i }
    ensures { (sizes : List ℕ) → length sizes ≡ blocks → ((i r : ℕ) → i < blocks → F.post size i r → r ≡ slice_index sizes i) → result ≡ place sizes n }
{
    let mut left = n;
    // by number, as the sizes are given; it stops at the block that it looks for
    for i in 0..blocks {
        let items = size(i);
        if left < items {
            return Some((i, left));
        }
        left -= items;
    }
    None
}
