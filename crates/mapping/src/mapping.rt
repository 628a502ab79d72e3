ghost use Rattle.netfile.specs.Reading.{read_file};
ghost use Rattle.mapping.specs.Maps.{Maps};

use crate::MapError;
use std::alloc::Global;
use theory::Encoding;

// Writes the page of a network file, opened over its support clauses, into the caller's bytes, and answers its length.
pub fn write_map(heap: Global, file: &[u8], out: &mut [u8]) -> Result<usize, MapError>
    ensures { Maps (read_file file.now) out.old out.new result }
{
    // the page goes into the caller's bytes, for C
    let network = netfile::read(heap, file)?;
    let session = opening::open_network(heap, &network, Encoding::Support)?;
    let length = page::write_page(&session, out)?;
    Ok(length)
}
