//! A desk that asks for its next peer.
ghost use Rattle.std.specs.Prelude.{◌≡◌, ◌+◌, ◌^◌, ◌<◌, ◌≤◌, length, IfSome, OnSome};
ghost use Rattle.stock_io.specs.Listeners.{IsFresh};
ghost use Rattle.shared_listener.specs.Turns.{IfPeer};
ghost use Rattle.desk_connections.specs.Ways.{IsWay, LeavesWay, Finds, Asks};

use shared_listener::listener::{Next, SharedListener};
use std::sync::Wait;
use std::sync::atomic::AtomicU64;
use std::time::Duration;
use stock_io::listener::Listener;
use stock_nums::numbers::DeskNo;
use turn_lock::lock::TurnLock;
use turn_lock::pass::Pass;

/// With so many turns of a pass a desk takes one more, and with more it waits for ever: a lock has no more turns than these for its passes.
pub const FEW_TURNS: u64 = 1 << 56;

// How long a desk rests where another one's first peer is still to come.
const REST_MILLIS: u64 = 10;

/// A desk's pass of the listener's lock, and its next peer, if one came.
#[derive(Drop)]
pub struct Found<L: Listener> {
    pub way: Pass<SharedListener<L>>,
    pub next: Option<L::Peer>,
}

// The pass, and what the desk was told.
#[derive(Drop)]
struct Asked<L: Listener> {
    way: Pass<SharedListener<L>>,
    next: Next<L::Peer>,
}

/// Asks the listener for this desk's next peer until it comes, or no further one does. Desks with lower numbers have their first peers
/// before this one has. It may wait, for the lock and for peers; once the pass had more than 2^56 turns, it waits for ever.
pub fn find<L: Listener, R: Wait>(
    rt: &R,
    shared: &TurnLock<SharedListener<L>>,
    number: DeskNo,
    way: Pass<SharedListener<L>>,
) -> Found<L>
    requires same_lock { way.lock ≡ shared.now.lock }
    requires number { number.0 ≡ way.view.number }
    requires way { IsWay way.view }
    ensures same_lock { result.way.lock ≡ way.lock }
    ensures rest { LeavesWay way.view result.way.view }
    ensures way { IsWay result.way.view }
    ensures few_turns { OnSome result.next (length result.way.view.stops < 2 ^ 57) }
    ensures found { Finds number.0 way.view result.next result.way.view }
    ensures fresh { IfSome result.next (IsFresh L.Peer.taken L.Peer.written L.Peer.Source.faults L.Peer.ended) }
{
    let mut way = way;
    for _ in rt.forever() {
        if way.gives() > FEW_TURNS {
            rest(rt);
        } else {
            let asked = ask(rt, shared, number, way);
            way = asked.way;
            match asked.next {
                Next::Peer(peer) => {
                    return Found {
                        way,
                        next: Some(peer),
                    };
                }
                Next::Over => return Found { way, next: None },
                Next::NotYet => rest(rt),
            }
        }
    }
    unreachable!()
}

// Asks once, in a turn of the pass.
fn ask<L: Listener, R: Wait>(
    rt: &R,
    shared: &TurnLock<SharedListener<L>>,
    number: DeskNo,
    way: Pass<SharedListener<L>>,
) -> Asked<L>
    requires same_lock { way.lock ≡ shared.now.lock }
    requires number { number.0 ≡ way.view.number }
    requires few_turns { length way.view.stops < 2 ^ 57 }
    requires way { IsWay way.view }
    ensures same_lock { result.way.lock ≡ way.lock }
    ensures rest { LeavesWay way.view result.way.view }
    ensures way { IsWay result.way.view }
    ensures one_turn { length result.way.view.stops ≡ length way.view.stops + 1 }
    ensures told { Asks number.0 way.view.made result.next result.way.view.made }
    ensures fresh { IfPeer result.next (IsFresh L.Peer.taken L.Peer.written L.Peer.Source.faults L.Peer.ended) }
{
    let mut held = shared.take(rt, way);
    let next = held.book().next(number);
    Asked {
        way: shared.give(held),
        next,
    }
}

// Rests for a short time. Nobody wakes a desk that rests: the word is its own.
pub(crate) fn rest<R: Wait>(rt: &R) {
    let word = AtomicU64::new(0);
    word.park_timeout(rt, 0, Duration::from_millis(REST_MILLIS));
}
