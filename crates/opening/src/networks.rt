ghost use Rattle.std.specs.Prelude.{◌≡◌, [], IfOk};
ghost use Rattle.theory.specs.Encodings.{clauses};
ghost use Rattle.theory.specs.Numbering.{total};
ghost use Rattle.network.specs.Contents.{meaning};
ghost use Rattle.network.specs.Points.{counts_of, points_of};
ghost use Rattle.clause_store.specs.Fitness.{Fit};
ghost use Rattle.session.specs.Sessions.{state_of};
ghost use Rattle.opening.specs.Bounded.{AlwaysFit};

use clause_store::OpenError;
use computed::ComputedBook;
use network::Network;
use session::Session;
use std::alloc::{AllocError, Global};
use theory::Encoding;

// A session over a network's points and its clauses in an encoding, which are always fit.
pub fn open_network(
    heap: Global,
    network: &Network,
    encoding: Encoding,
) -> Result<Session, AllocError>
    ensures opened { IfOk result (λ s. state_of s ≡ record { points = points_of network.now.points; clauses = clauses encoding (meaning network.now); decisions = [] }) }
    ensures fit { Fit (total (counts_of network.now.points)) (clauses encoding (meaning network.now)) }
    ensures always { AlwaysFit }
{
    let mut session = Session::new(heap);
    let book = ComputedBook::new(network, encoding);
    match session.open(heap, network.points(), &book) {
        Ok(()) => Ok(session),
        Err(OpenError::OutOfMemory) => Err(AllocError),
        Err(OpenError::Unfit) => unreachable(),
    }
}
