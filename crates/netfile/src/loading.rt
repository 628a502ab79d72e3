ghost use Rattle.std.specs.Prelude.{◌≡◌, ℕ, ◌≤◌, ◌&&◌, Some, length, vec_len};
ghost use Rattle.network.specs.Bounds.{PointsWithin, most_tables};
ghost use Rattle.network.specs.Points.{entries, values_of};
ghost use Rattle.network.specs.Tables.{tables_of, TablesWithin};
ghost use Rattle.network.specs.Contents.{contents_of};
ghost use Rattle.netfile.specs.Reading.{contents, read_file};
ghost use Rattle.netfile.specs.Listings.{AcceptsExactly};
ghost use Rattle.netfile.specs.Conditions.{FirstFaultDecides};
ghost use Rattle.netfile.specs.Drafts.{state_of, ended};
ghost use Rattle.netfile.specs.Outcomes.{refused_by, out_of_memory, Drafts, Reads, Loads};
ghost use Rattle.netfile.specs.Texts.{read_error_text};

use crate::draft::Draft;
use crate::fault::Fault;
use crate::reader::Reader;
use network::{Network, PointList};
use std::alloc::{AllocError, Global};
use std::error::Error;
use std::fmt;

// Why no network was read.
#[derive(Clone, Copy, Debug, PartialEq, Eq)]
pub enum ReadError {
    // the file is refused
    Refused(Fault),
    // there was no memory for the network
    OutOfMemory,
}

impl fmt::Display for ReadError {
    ghost output = { λ error. Some (read_error_text error) };

    fn fmt<W: fmt::Write>(&self, f: &mut fmt::Formatter<W>) -> fmt::Result {
        match self {
            ReadError::Refused(fault) => write!(f, "{fault}"),
            ReadError::OutOfMemory => f.write_str("out of memory"),
        }
    }
}

impl Error for ReadError {}

impl From<Fault> for ReadError {
    ghost from_gives = { λ f r. r ≡ refused_by f };

    fn from(f: Fault) -> ReadError {
        ReadError::Refused(f)
    }
}

// By hand, as for each error type: a derived conversion has no contract that names the variant.
impl From<AllocError> for ReadError {
    ghost from_gives = { λ _ r. r ≡ out_of_memory };

    fn from(_e: AllocError) -> ReadError {
        ReadError::OutOfMemory
    }
}

// The network that a finished draft says.
fn finish(draft: Draft) -> Network
    requires points { PointsWithin (vec_len draft.points) }
    requires few { vec_len draft.tables ≤ most_tables }
    requires within { TablesWithin (values_of (entries draft.points.items)) (tables_of draft.tables.items) }
    ensures { contents_of result ≡ contents (state_of draft) }
{
    let Draft {
        expect: _,
        announced: _,
        points,
        tables,
        pairs: _,
    } = draft;
    let points = PointList::new(points).unwrap();
    Network::assemble(points, tables)
}

// What the records of a file say, to its end.
fn draft_of(heap: Global, file: &[u8]) -> Result<Draft, ReadError>
    ensures { Drafts (read_file file.now) result }
{
    let mut reader = Reader::new(heap, file);
    // no `for`: what may come next depends on what was taken over
    while !reader.done() {
        let record = reader.next()?;
        reader.draft.take(record)?;
    }
    let Reader { cursor: _, draft } = reader;
    Ok(draft)
}

// Reads a network file.
pub fn read(heap: Global, file: &[u8]) -> Result<Network, ReadError>
    ensures answer { Reads (read_file file.now) result }
    ensures accepts { AcceptsExactly }
    ensures faults { FirstFaultDecides }
{
    let draft = draft_of(heap, file)?;
    Ok(finish(draft))
}

// Reads a network file in place of a network, which stays as it was where the file is refused.
pub fn load(heap: Global, network: &mut Network, file: &[u8]) -> Result<(), ReadError>
    ensures { Loads (read_file file.now) network.old network.new result }
{
    *network = read(heap, file)?;
    Ok(())
}
