//! A desk that serves one peer after another.
ghost use Rattle.std.specs.Prelude.{◌≡◌, ◌^◌, ◌<◌, ◌≤◌, true, length};
ghost use Rattle.stock_nums.specs.declared.limits.TheConstants.{MAX_DESK};
ghost use Rattle.desk_server.specs.Exchanging.{LeavesRest};
ghost use Rattle.shared_listener.specs.Steps.{comes, hangs, has_ended};
ghost use Rattle.desk_connections.specs.Desks.{HasServed, ServesOne};
ghost use Rattle.desk_connections.specs.Visits.{Learnt, learnt, IsVisit};
ghost use Rattle.desk_connections.specs.Ways.{IsWay, LeavesWay};

use crate::finding::{FEW_TURNS, find, rest};
use crate::handing_back::give_back;
use generation_book::book::Book;
use mirrored_desk::session::serve_desk_mirrored;
use report_mirror::reader::MirrorReader;
use shared_listener::listener::SharedListener;
use std::alloc::Global;
use std::sync::Wait;
use stock_io::link::Link;
use stock_io::listener::Listener;
use stock_keeper::keeper::Keeper;
use stock_nums::numbers::DeskNo;
use turn_lock::lock::TurnLock;
use turn_lock::pass::Pass;

/// What a desk has: its pass of the book's lock, its reader of the mirror, and its way to the listener, which is its pass of that lock.
#[derive(Drop)]
pub struct Desk<K: Keeper, L: Listener> {
    pub pass: Pass<Book<K>>,
    pub reader: MirrorReader,
    pub way: Pass<SharedListener<L>>,
}

/// Serves one peer after another that the listener has for the desk with this number, until it is told that no further one comes. Each
/// is handed back, once its session has ended, before the desk asks for the next. It may wait, for peers and for both locks; once a
/// pass had more than 2^56 turns, it waits for ever.
pub fn go_further<K: Keeper, P: Link, L: Listener<Peer = P>, R: Wait>(
    rt: &R,
    alloc: Global,
    lock: &TurnLock<Book<K>>,
    shared: &TurnLock<SharedListener<L>>,
    number: DeskNo,
    desk: Desk<K, L>,
) -> Desk<K, L>
    requires same_lock { desk.pass.lock ≡ lock.now.lock }
    requires same_way_lock { desk.way.lock ≡ shared.now.lock }
    requires number { number.0 ≡ desk.pass.view.number }
    requires way_number { number.0 ≡ desk.way.view.number }
    requires desk { number.0 ≤ MAX_DESK }
    requires way { IsWay desk.way.view }
    requires all_back { length (hangs desk.way.view.made) ≡ length (comes desk.way.view.made) }
    ensures same_lock { result.pass.lock ≡ desk.pass.lock }
    ensures same_way_lock { result.way.lock ≡ desk.way.lock }
    ensures rest { LeavesRest desk.pass.view result.pass.view }
    ensures way_rest { LeavesWay desk.way.view result.way.view }
    ensures way { IsWay result.way.view }
    ensures over { has_ended result.way.view.made ≡ true }

    // What the desk had served before, it has served with these behind it.
    ensures served { (before : Learnt)
        → HasServed (IsVisit P.left P.taken P.written P.Source.faults P.ended number.0) before
        (learnt desk.pass.view desk.reader) desk.way.view.made
        → HasServed (IsVisit P.left P.taken P.written P.Source.faults P.ended number.0) before
        (learnt result.pass.view result.reader) result.way.view.made }
{
    let mut desk = desk;
    for _ in rt.forever() {
        if desk.pass.gives() > FEW_TURNS {
            rest(rt);
        } else {
            let found = find(rt, shared, number, desk.way);
            desk.way = found.way;
            match found.next {
                Some(peer) => desk = serve_one(rt, alloc, lock, shared, number, desk, peer),
                None => return desk,
            }
        }
    }
    unreachable!()
}

/// Serves a peer that came to the desk, and hands it back once its session has ended. It may wait, for the peer and for both locks.
pub fn serve_one<K: Keeper, P: Link, L: Listener<Peer = P>, R: Wait>(
    rt: &R,
    alloc: Global,
    lock: &TurnLock<Book<K>>,
    shared: &TurnLock<SharedListener<L>>,
    number: DeskNo,
    desk: Desk<K, L>,
    peer: P,
) -> Desk<K, L>
    requires same_lock { desk.pass.lock ≡ lock.now.lock }
    requires same_way_lock { desk.way.lock ≡ shared.now.lock }
    requires number { number.0 ≡ desk.pass.view.number }
    requires way_number { number.0 ≡ desk.way.view.number }
    requires desk { number.0 ≤ MAX_DESK }
    requires few_turns { length desk.pass.view.stops ≤ 2 ^ 56 }
    requires few_way_turns { length desk.way.view.stops < 2 ^ 57 }
    requires way { IsWay desk.way.view }
    requires has_peer { length (hangs desk.way.view.made) < length (comes desk.way.view.made) }
    ensures same_lock { result.pass.lock ≡ desk.pass.lock }
    ensures same_way_lock { result.way.lock ≡ desk.way.lock }
    ensures rest { LeavesRest desk.pass.view result.pass.view }
    ensures way_rest { LeavesWay desk.way.view result.way.view }
    ensures way { IsWay result.way.view }
    ensures served { ServesOne (IsVisit P.left P.taken P.written P.Source.faults P.ended number.0) number.0
        (learnt desk.pass.view desk.reader) (learnt result.pass.view result.reader) desk.way.view.made result.way.view.made peer }
{
    let Desk { pass, reader, way } = desk;
    let mut peer = peer;
    let left = serve_desk_mirrored(rt, alloc, lock, pass, reader, number, &mut peer);
    Desk {
        pass: left.pass,
        reader: left.reader,
        way: give_back(rt, shared, number, way, peer),
    }
}
