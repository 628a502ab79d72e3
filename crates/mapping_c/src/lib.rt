// The map of a network file, for programs in C.
#![tactic(auto)]

ghost use Rattle.std.specs.Prelude.{◌≡◌, ℕ, Result};
ghost use Rattle.netfile.specs.Reading.{read_file};
ghost use Rattle.mapping.specs.declared.error.MapError.{MapError};
ghost use Rattle.mapping.specs.Maps.{Maps, answer_of};

use std::alloc::Global;

// The page of a network file for a program in C: its length, or the number of the refusal with a minus sign.
#[unsafe(no_mangle)]
pub extern "C" fn hazhgiti_map(heap: Global, file: &[u8], page: &mut [u8]) -> i64
    ensures { (q : Result ℕ MapError) × Maps (read_file file.now) page.old page.new q × (result ≡ answer_of q) }
{
    // one number for a length or a refusal, as a program in C reads it
    mapping::hazhgiti_map(heap, file, page)
}
