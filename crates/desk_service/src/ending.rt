//! The end of the locks that desks share, once all desks have ended.
ghost use Rattle.std.specs.Prelude.{◌≡◌, ◌+◌, ◌≤◌, [], All, length};
ghost use Rattle.stock_io.specs.Heard.{heard};
ghost use Rattle.stock_io.specs.Listeners.{IsFresh};
ghost use Rattle.desk_service.specs.Endings.{IsClosed, IsUnshared};

use crate::passes::join_all;
use shared_listener::listener::SharedListener;
use stock_io::listener::Listener;
use turn_lock::lock::TurnLock;
use turn_lock::logged::Logged;
use turn_lock::pass::Pass;

/// Joins all these passes into pass 0, ends the lock, and gives its value back.
pub fn close_all<B: Logged>(lock: TurnLock<B>, pass: Pass<B>, passes: Vec<Pass<B>>) -> B
    requires same_lock { pass.lock ≡ lock.lock }
    requires of_lock { All (λ other. other.lock ≡ lock.lock) passes.items }
    requires zero { pass.view.number ≡ 0 }
    requires none_joined { pass.view.joined ≡ [] }
    requires split { pass.view.split ≡ length passes.items }
    ensures closed { IsClosed pass.view passes.items (B.history result) (B.faults result) }
    ensures follows { B.follows pass.view.start result }
{
    let pass = join_all(&lock, pass, passes);
    lock.close(pass)
}

/// A listener that no desk shares any more, and how many peers came from it.
#[derive(Drop)]
pub struct Unshared<L> {
    pub listener: L,
    pub accepted: u32,
}

/// Ends the lock round the listener, once all ways are at rest.
pub fn unshare<L: Listener>(
    shared: TurnLock<SharedListener<L>>,
    way: Pass<SharedListener<L>>,
    ways: Vec<Pass<SharedListener<L>>>,
) -> Unshared<L>
    requires same_lock { way.lock ≡ shared.lock }
    requires of_lock { All (λ other. other.lock ≡ shared.lock) ways.items }
    requires zero { way.view.number ≡ 0 }
    requires none_joined { way.view.joined ≡ [] }
    requires split { way.view.split ≡ length ways.items }
    ensures { IsUnshared (heard L.waiting L.hung_up L.accepts L.hang_ups L.faults) L.listens_to
        (IsFresh L.Peer.taken L.Peer.written L.Peer.Source.faults L.Peer.ended) way.view ways.items result.listener result.accepted }
{
    let shared = close_all(shared, way, ways);
    let accepted = shared.came();
    Unshared {
        listener: shared.into_listener(),
        accepted,
    }
}
