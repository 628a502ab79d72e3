ghost use Rattle.std.specs.Prelude.{◌≡◌, OnErr};
ghost use Rattle.network.specs.Points.{points_of};
ghost use Rattle.calls.specs.States.{unopened};
ghost use Rattle.session.specs.Sessions.{state_of, Opens};

use super::Session;
use books::ClauseBook;
use clause_store::OpenError;
use network::PointList;
use propagator::Propagator;
use std::alloc::Global;

impl Session {
    // New and open are two steps: a session is opened again over another book, and a refused opening leaves it as it was.
    // A session that is not opened yet: it has no point, no decision and no clash.
    pub fn new(heap: Global) -> Session
        ensures { state_of result ≡ unopened }
    {
        Session {
            points: Vec::new(heap),
            inner: Propagator::empty(heap),
        }
    }

    // Opens the session over points and a clause book; a refusal leaves it as it was.
    pub fn open<B: ClauseBook>(
        &mut self,
        heap: Global,
        points: &PointList,
        book: &B,
    ) -> Result<(), OpenError>
        ensures answer { Opens (points_of points.now) (B.clauses book.now) (state_of self.new) result }
        ensures kept { OnErr result (self.new ≡ self.old) }
    {
        let inner = Propagator::open(heap, book, points.total() as u32)?;
        let points = Vec::from_slice(heap, points.points())?;
        *self = Session { points, inner };
        Ok(())
    }
}
