//! Peers that are accepted one after another, the first ones one for each desk.
ghost use Rattle.std.specs.Prelude.{◌≡◌, ◌+◌, ◌^◌, ◌<◌, ◌≤◌, [], ◌∷◌, ◌++◌, true, length, vec_len, vec_capacity, IfOk, IfErr};
ghost use Rattle.stock_nums.specs.declared.limits.TheConstants.{MAX_DESK};
ghost use Rattle.desk_connections.specs.Ways.{IsWay, LeavesWay};
ghost use Rattle.desk_service.specs.Passes.{ArePassesFrom};
ghost use Rattle.desk_service.specs.Ways.{AreWaysFrom};
ghost use Rattle.desk_service.specs.Desks.{IsBegun};
ghost use Rattle.desk_service.specs.Serving.{Serving};

use crate::commons::Commons;
use crate::desk::{Attends, Started, finish, start};
use desk_connections::desk::Desk;
use desk_connections::finding::{Found, find};
use generation_book::book::Book;
use report_mirror::reader::MirrorReader;
use shared_listener::listener::SharedListener;
use std::alloc::Global;
use std::snapshot::Snapshot;
use std::sync::Wait;
use std::thread::{Scope, Threads};
use stock_io::listener::Listener;
use stock_keeper::keeper::Keeper;
use stock_nums::numbers::DeskNo;
use turn_lock::pass::Pass;

/// The passes of desks, their readers of the mirror, and their ways to the listener, as many. Those of the first desk come last.
#[derive(Drop)]
pub struct Desks<K: Keeper, L: Listener> {
    pub passes: Vec<Pass<Book<K>>>,
    pub readers: Vec<MirrorReader>,
    pub ways: Vec<Pass<SharedListener<L>>>,
}

/// Accepts a peer for each desk, in order, and lets it serve that peer and those that come after it in a thread of its own, until no
/// further one comes. A desk for which no thread can be made serves its first peer before the next one is accepted, and those that come
/// after it once all desks have begun.
pub fn accept_all<
    's,
    E: 's,
    K: Keeper + Send + 's,
    L: Listener + Send + 's,
    R: Threads + Wait + Sync + 's,
>(
    rt: &'s R,
    alloc: Global,
    scope: &'s Scope<'s, E>,
    commons: &'s Commons<K, L>,
    next: DeskNo,
    desks: Desks<K, L>,
) -> Desks<K, L>
    requires passes { ArePassesFrom commons.now.lock.lock next.0 desks.passes.items }
    requires ways { AreWaysFrom commons.now.shared.lock next.0 desks.ways.items }
    requires as_many { (vec_len desks.ways ≡ vec_len desks.passes) × (vec_len desks.readers ≡ vec_len desks.passes) }
    requires numbers { next.0 + vec_len desks.passes ≤ MAX_DESK + 1 }
    ensures len { vec_len result.passes ≡ vec_len desks.passes }
    ensures readers_len { vec_len result.readers ≡ vec_len desks.readers }
    ensures ways_len { vec_len result.ways ≡ vec_len desks.ways }
    ensures passes_room { vec_capacity desks.passes ≤ vec_capacity result.passes }
    ensures readers_room { vec_capacity desks.readers ≤ vec_capacity result.readers }
    ensures ways_room { vec_capacity desks.ways ≤ vec_capacity result.ways }
    ensures serving { Serving (λ desk work. IsBegun L.Peer.left L.Peer.taken L.Peer.written L.Peer.Source.faults L.Peer.ended desk work.pass work.pass_then work.read work.read_then work.way work.way_then true)
        next.0 desks.passes.items result.passes.items desks.readers.items result.readers.items desks.ways.items result.ways.items }
{
    if desks.passes.is_empty() {
        return desks;
    }
    let First { desk, others } = first_of(desks);
    let started = open(rt, alloc, scope, commons, next, desk);
    let rest = accept_all(rt, alloc, scope, commons, DeskNo(next.0 + 1), others);
    with_desk(
        rest,
        finish(rt, alloc, &commons.lock, &commons.shared, started),
    )
}

// The desk that is next, and the others.
#[derive(Drop)]
struct First<K: Keeper, L: Listener> {
    desk: Desk<K, L>,
    others: Desks<K, L>,
}

// Takes the next desk out, which is the last.
fn first_of<K: Keeper, L: Listener>(desks: Desks<K, L>) -> First<K, L>
    requires some { 0 < vec_len desks.passes }
    requires as_many { (vec_len desks.ways ≡ vec_len desks.passes) × (vec_len desks.readers ≡ vec_len desks.passes) }
    ensures passes { desks.passes.items ≡ result.others.passes.items ++ result.desk.pass ∷ [] }
    ensures readers { desks.readers.items ≡ result.others.readers.items ++ result.desk.reader ∷ [] }
    ensures ways { desks.ways.items ≡ result.others.ways.items ++ result.desk.way ∷ [] }
    ensures passes_len { vec_len desks.passes ≡ vec_len result.others.passes + 1 }
    ensures readers_len { vec_len desks.readers ≡ vec_len result.others.readers + 1 }
    ensures ways_len { vec_len desks.ways ≡ vec_len result.others.ways + 1 }
    ensures passes_kept { vec_capacity result.others.passes ≡ vec_capacity desks.passes }
    ensures readers_kept { vec_capacity result.others.readers ≡ vec_capacity desks.readers }
    ensures ways_kept { vec_capacity result.others.ways ≡ vec_capacity desks.ways }
{
    let Desks {
        mut passes,
        mut readers,
        mut ways,
    } = desks;
    let Some(pass) = passes.pop() else {
        unreachable!()
    };
    let Some(reader) = readers.pop() else {
        unreachable!()
    };
    let Some(way) = ways.pop() else {
        unreachable!()
    };
    First {
        desk: Desk { pass, reader, way },
        others: Desks {
            passes,
            readers,
            ways,
        },
    }
}

// Finds the desk's first peer, and starts the desk.
fn open<'s, E: 's, K: Keeper + Send + 's, L: Listener + Send + 's, R: Wait + Sync + 's>(
    rt: &'s R,
    alloc: Global,
    scope: &Scope<'s, E>,
    commons: &'s Commons<K, L>,
    number: DeskNo,
    desk: Desk<K, L>,
) -> Started<K, L>
    requires same_lock { desk.pass.lock ≡ commons.now.lock.lock }
    requires same_way_lock { desk.way.lock ≡ commons.now.shared.lock }
    requires number { number.0 ≡ desk.pass.view.number }
    requires way_number { number.0 ≡ desk.way.view.number }
    requires desk { number.0 ≤ MAX_DESK }
    requires few_turns { length desk.pass.view.stops ≤ 2 ^ 56 }
    requires way { IsWay desk.way.view }
    requires nothing { desk.way.view.made ≡ [] }
    ensures number { result.promise.number.0 ≡ number.0 }
    ensures pass { result.promise.pass.value ≡ desk.pass }
    ensures reader { result.promise.reader.value ≡ desk.reader }
    ensures same_way_lock { result.promise.way.value.lock ≡ desk.way.lock }
    ensures way_rest { LeavesWay desk.way.view result.promise.way.value.view }
    ensures promised { IfOk result.running (λ thread. (thread.promise.number.0 ≡ result.promise.number.0)
        × (thread.promise.pass.value ≡ result.promise.pass.value) × (thread.promise.reader.value ≡ result.promise.reader.value)
        × (thread.promise.way.value ≡ result.promise.way.value)) }
    ensures begun { IfErr result.running (λ begun. IsBegun L.Peer.left L.Peer.taken L.Peer.written L.Peer.Source.faults L.Peer.ended result.promise.number.0
        result.promise.pass.value begun.pass result.promise.reader.value begun.reader
        result.promise.way.value begun.way begun.is_over) }
{
    let Desk { pass, reader, way } = desk;
    let Found { way, next: first } = find(rt, &commons.shared, number, way);
    let promise = Attends {
        number,
        pass: Snapshot::of(&pass),
        reader: Snapshot::of(&reader),
        way: Snapshot::of(&way),
    };
    let desk = Desk { pass, reader, way };
    let running = start(rt, alloc, scope, commons, number, desk, first);
    Started { promise, running }
}

// The same with one desk more, which was before them.
fn with_desk<K: Keeper, L: Listener>(desks: Desks<K, L>, desk: Desk<K, L>) -> Desks<K, L>
    requires passes_room { vec_len desks.passes < vec_capacity desks.passes }
    requires readers_room { vec_len desks.readers < vec_capacity desks.readers }
    requires ways_room { vec_len desks.ways < vec_capacity desks.ways }
    ensures passes { result.passes.items ≡ desks.passes.items ++ desk.pass ∷ [] }
    ensures readers { result.readers.items ≡ desks.readers.items ++ desk.reader ∷ [] }
    ensures ways { result.ways.items ≡ desks.ways.items ++ desk.way ∷ [] }
    ensures passes_len { vec_len result.passes ≡ vec_len desks.passes + 1 }
    ensures readers_len { vec_len result.readers ≡ vec_len desks.readers + 1 }
    ensures ways_len { vec_len result.ways ≡ vec_len desks.ways + 1 }
    ensures passes_kept { vec_capacity desks.passes ≤ vec_capacity result.passes }
    ensures readers_kept { vec_capacity desks.readers ≤ vec_capacity result.readers }
    ensures ways_kept { vec_capacity desks.ways ≤ vec_capacity result.ways }
{
    let Desks {
        mut passes,
        mut readers,
        mut ways,
    } = desks;
    let Ok(()) = passes.push(desk.pass) else {
        unreachable!()
    };
    let Ok(()) = readers.push(desk.reader) else {
        unreachable!()
    };
    let Ok(()) = ways.push(desk.way) else {
        unreachable!()
    };
    Desks {
        passes,
        readers,
        ways,
    }
}
