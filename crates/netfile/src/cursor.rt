ghost use Rattle.std.specs.Prelude.{◌≡◌, ℕ, ◌+◌, ◌≤◌, length, drop, IfOk, MatchResult, nat_le};
ghost use Rattle.netfile.specs.Bytes.{body_length, raw_at};
ghost use Rattle.netfile.specs.Records.{item_of, kind_of_item, record_at};
ghost use Rattle.netfile.specs.Answers.{map_ok, raw_of};

use crate::fault::{Fault, Layer};
use crate::record::{Kind, Record};
use crate::whole::Whole;
use network::Refusal;

// Moves over the bytes of a file, record by record.
#[derive(Drop)]
pub struct Cursor<'a> {
    file: &'a [u8],
    position: usize,
    ghost within: { position ≤ length file.now },
}

impl<'a> Cursor<'a> {
    // A cursor at the first byte.
    pub(crate) fn new(file: &'a [u8]) -> Cursor<'a>
        ensures file { result.file.now ≡ file.now }
        ensures position { result.position ≡ 0 }
    {
        Cursor { file, position: 0 }
    }

    // Where the next record begins.
    pub(crate) fn position(&self) -> usize
        ensures { result ≡ self.now.position }
    {
        self.position
    }

    // The byte layer: the whole record that begins here.
    fn whole(&self) -> Result<Whole<'a>, Fault>
        ensures answer { map_ok raw_of result ≡ raw_at self.now.position (drop self.now.position self.now.file.now) }
        ensures within { IfOk result (λ w. self.now.position + 1 + length w.body.now ≤ length self.now.file.now) }
    {
        let place = self.position;
        let Some((byte, rest)) = self.file[place..].split_first() else {
            return Err(Layer::Byte.fault(place, Refusal::Truncated));
        };
        let kind = Kind::try_from(*byte).map_err(|refusal| Layer::Byte.fault(place, refusal))?;
        let Some(body) = rest.get(..kind.body_length()) else {
            return Err(Layer::Byte.fault(self.file.len(), Refusal::Truncated));
        };
        Ok(Whole { kind, body })
    }

    // Whether all bytes have been read.
    pub(crate) fn at_end(&self) -> bool
        ensures { result ≡ nat_le (length self.now.file.now) self.now.position }
    {
        self.position == self.file.len()
    }

    // The next record, through the byte and the record layer. After a fault the cursor stays where it is.
    pub(crate) fn next(&mut self) -> Result<Record, Fault>
        ensures answer { map_ok item_of result ≡ record_at self.old.position (drop self.old.position self.old.file.now) }
        ensures same { self.new.file.now ≡ self.old.file.now }
        ensures moves { MatchResult result (λ x. self.new.position ≡ self.old.position + 1 + body_length (kind_of_item (item_of x))) (λ _. self.new.position ≡ self.old.position) }
    {
        let place = self.position;
        let whole = self.whole()?;
        let record = whole
            .check()
            .map_err(|refusal| Layer::Record.fault(place, refusal))?;
        self.position = place + 1 + whole.body.len();
        Ok(record)
    }
}
