ghost use Rattle.std.specs.Prelude.{◌≡◌, ℕ, ◌+◌, ◌≤◌, ◌&&◌, length, drop, IfOk, nat_le};
ghost use Rattle.netfile.specs.Bytes.{body_length};
ghost use Rattle.netfile.specs.Records.{item_of, kind_of_item};
ghost use Rattle.netfile.specs.Reading.{start, next_at};
ghost use Rattle.netfile.specs.Answers.{map_ok};
ghost use Rattle.netfile.specs.Drafts.{state_of, ended};

use crate::cursor::Cursor;
use crate::draft::Draft;
use crate::fault::{Fault, Layer};
use crate::record::Record;
use network::Refusal;
use std::alloc::Global;

// Reads a file record by record and keeps what the records said.
#[derive(Drop)]
pub struct Reader<'a> {
    pub cursor: Cursor<'a>,
    pub draft: Draft,
}

impl<'a> Reader<'a> {
    // A reader at the first byte.
    pub(crate) fn new(heap: Global, file: &'a [u8]) -> Reader<'a>
        ensures file { result.cursor.file.now ≡ file.now }
        ensures position { result.cursor.position ≡ 0 }
        ensures state { state_of result.draft ≡ start }
    {
        Reader {
            cursor: Cursor::new(file),
            draft: Draft::new(heap),
        }
    }

    // Whether the end record has come and all bytes have been read.
    pub(crate) fn done(&self) -> bool
        ensures { result ≡ (ended self.now.draft.expect && nat_le (length self.now.cursor.file.now) self.now.cursor.position) }
    {
        self.draft.finished() && self.cursor.at_end()
    }

    // The next record, through all three layers. It is not taken over yet.
    pub(crate) fn next(&mut self) -> Result<Record, Fault>
        ensures answer { map_ok item_of result ≡ next_at self.old.draft.expect (state_of self.old.draft) self.old.cursor.position (drop self.old.cursor.position self.old.cursor.file.now) }
        ensures draft { self.new.draft ≡ self.old.draft }
        ensures same { self.new.cursor.file.now ≡ self.old.cursor.file.now }
        ensures moves { IfOk result (λ x. self.new.cursor.position ≡ self.old.cursor.position + 1 + body_length (kind_of_item (item_of x))) }
    {
        let place = self.cursor.position();
        if self.draft.finished() {
            return Err(Layer::Network.fault(place, Refusal::TrailingBytes));
        }
        let record = self.cursor.next()?;
        self.draft
            .objection(record)
            .map_err(|refusal| Layer::Network.fault(place, refusal))?;
        Ok(record)
    }
}
