ghost use Rattle.std.specs.Prelude.{◌≡◌, length};
ghost use Rattle.netfile.specs.Bytes.{body_length};

use crate::checks;
use crate::record::{Kind, Record};
use network::Refusal;

// A whole record: its kind, and as many bytes as the kind asks for.
#[derive(Clone, Copy)]
pub struct Whole<'a> {
    pub kind: Kind,
    pub body: &'a [u8],
    ghost size: { length body.now ≡ body_length kind },
}

impl<'a> Whole<'a> {
    ghost use Rattle.std.specs.Prelude.{ℕ};
    ghost use Rattle.netfile.specs.Records.{item_of, checked, at_place};
    ghost use Rattle.netfile.specs.Answers.{map_ok};

    // The record layer: what a whole record says, or what is wrong with it.
    pub(crate) fn check(&self) -> Result<Record, Refusal>
        ensures { (place : ℕ) → map_ok item_of (at_place place result) ≡ checked place self.now.kind self.now.body.now }
    {
        let body = self.body;
        // a match: the kinds are an enum, and these are all there are
        match self.kind {
            Kind::Head => checks::head(body[0], body[1] as usize, body[2] as usize),
            Kind::Point => checks::point(body[0], checks::label(body)),
            Kind::Table => checks::table(body[0], body[1]),
            Kind::Pair => Ok(Record::Pair {
                low: body[0] as usize,
                high: body[1] as usize,
            }),
            Kind::End => Ok(Record::End {
                pairs: u16::from_be_bytes([body[0], body[1]]) as usize,
            }),
        }
    }
}
