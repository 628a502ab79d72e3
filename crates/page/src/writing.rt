ghost use Rattle.std.specs.Prelude.{◌≡◌, length, IfOk};
ghost use Rattle.session.specs.Sessions.{state_of};
ghost use Rattle.page.specs.Pages.{page_text};
ghost use Rattle.page.specs.Writing.{Written};

use crate::PageRefusal;
use crate::bytes::write_bytes;
use crate::lines::{lines_length, write_lines};
use session::Session;
use std::alloc::{AllocError, Global};

// The page of a session in a clash.
const CLASH: &[u8] = b"clash\n";

// How many bytes a session's page has.
fn page_length(session: &Session) -> usize
    ensures { result ≡ length (page_text (state_of session.now)) }
{
    if session.has_clash() {
        CLASH.len()
    } else {
        lines_length(session)
    }
}

// Writes a session's page into the caller's bytes, and answers its length; with too few bytes nothing is written.
pub fn write_page(session: &Session, out: &mut [u8]) -> Result<usize, PageRefusal>
    ensures { Written (page_text (state_of session.now)) out.old out.new result }
{
    // the caller's bytes, by a rule of the project and for C: a page is written with no memory from the heap
    if out.len() < page_length(session) {
        return Err(PageRefusal::TooShort);
    }
    if session.has_clash() {
        Ok(write_bytes(CLASH, out, 0))
    } else {
        Ok(write_lines(session, out))
    }
}

// A session's page as bytes of its own.
pub fn page(heap: Global, session: &Session) -> Result<Vec<u8>, AllocError>
    ensures { IfOk result (λ v. v.items ≡ page_text (state_of session.now)) }
{
    let size = page_length(session);
    let mut bytes = vec![in heap; 0u8; size]?;
    let _ = write_page(session, &mut bytes).unwrap();
    Ok(bytes)
}
