ghost use Rattle.std.specs.Prelude.{◌≡◌, ℕ, Result};
ghost use Rattle.netfile.specs.Reading.{read_file};
ghost use Rattle.mapping.specs.Maps.{Maps, answer_of};

use crate::{MapError, write_map};
use std::alloc::Global;

// The page of a network file as the export for C answers it: its length, or the number of the refusal with a minus sign.
pub fn hazhgiti_map(heap: Global, file: &[u8], page: &mut [u8]) -> i64
    ensures { (q : Result ℕ MapError) × Maps (read_file file.now) page.old page.new q × (result ≡ answer_of q) }
{
    // one number for a length or a refusal, as the export in mapping_c hands it to a program in C
    match write_map(heap, file, page) {
        Ok(length) => length as i64,
        Err(error) => -(error.number() as i64),
    }
}
