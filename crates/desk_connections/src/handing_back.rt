//! A peer that is handed back to the listener that desks share.
ghost use Rattle.std.specs.Prelude.{◌≡◌, ◌+◌, ◌^◌, ◌<◌, length};
ghost use Rattle.shared_listener.specs.Steps.{comes, hangs, NotesHungUp};
ghost use Rattle.desk_connections.specs.Ways.{IsWay, LeavesWay};

use shared_listener::listener::SharedListener;
use std::sync::Wait;
use stock_io::listener::Listener;
use stock_nums::numbers::DeskNo;
use turn_lock::lock::TurnLock;
use turn_lock::pass::Pass;

/// Hands a peer of this desk back to the listener, in a turn of the desk's pass. It may wait for the lock.
pub fn give_back<L: Listener, R: Wait>(
    rt: &R,
    shared: &TurnLock<SharedListener<L>>,
    number: DeskNo,
    way: Pass<SharedListener<L>>,
    peer: L::Peer,
) -> Pass<SharedListener<L>>
    requires same_lock { way.lock ≡ shared.now.lock }
    requires number { number.0 ≡ way.view.number }
    requires few_turns { length way.view.stops < 2 ^ 57 }
    requires way { IsWay way.view }
    requires has_peer { length (hangs way.view.made) < length (comes way.view.made) }
    ensures same_lock { result.lock ≡ way.lock }
    ensures rest { LeavesWay way.view result.view }
    ensures way { IsWay result.view }
    ensures one_turn { length result.view.stops ≡ length way.view.stops + 1 }
    ensures noted { NotesHungUp number.0 peer way.view.made result.view.made }
{
    let mut held = shared.take(rt, way);
    held.book().hang_up(number, peer);
    shared.give(held)
}
