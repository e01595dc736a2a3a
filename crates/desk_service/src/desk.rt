//! A desk in a thread of its own: its pass, its reader and its way go in by value, and come back.
ghost use Rattle.std.specs.Prelude.{◌≡◌, ◌^◌, ◌<◌, ◌≤◌, [], true, length, IfOk, IfErr, OnSome};
ghost use Rattle.stock_nums.specs.declared.limits.TheConstants.{MAX_DESK};
ghost use Rattle.shared_listener.specs.Steps.{NotesCame};
ghost use Rattle.desk_connections.specs.Ways.{IsWay};
ghost use Rattle.desk_service.specs.Desks.{IsFirst, IsBegun};

use crate::alone::Alone;
use crate::commons::Commons;
use desk_connections::desk::{Desk, go_further, serve_one};
use generation_book::book::Book;
use report_mirror::reader::MirrorReader;
use shared_listener::listener::SharedListener;
use std::alloc::Global;
use std::snapshot::Snapshot;
use std::sync::Wait;
use std::thread::{Promise, PromisedHandle, Scope, Threads};
use stock_io::link::Link;
use stock_io::listener::Listener;
use stock_keeper::keeper::Keeper;
use stock_nums::numbers::DeskNo;
use turn_lock::lock::TurnLock;
use turn_lock::pass::Pass;

/// What comes back from a desk's thread: its pass, its reader, its way, and whether it was told that no further peer comes. They are no
/// struct, as that such a one may cross from one thread to another is not found.
pub type Parts<K, L> = (Pass<Book<K>>, MirrorReader, Pass<SharedListener<L>>, bool);

/// A desk that has served its first peer, and whether it was told that no further one comes.
#[derive(Drop)]
pub struct Begun<K: Keeper, L: Listener> {
    pub pass: Pass<Book<K>>,
    pub reader: MirrorReader,
    pub way: Pass<SharedListener<L>>,
    pub is_over: bool,
}

/// That the desk with this number serves peers with this pass, reader and way.
#[derive(Drop)]
pub struct Attends<K: Keeper, L: Listener> {
    pub number: DeskNo,
    pub pass: Snapshot<Pass<Book<K>>>,
    pub reader: Snapshot<MirrorReader>,
    pub way: Snapshot<Pass<SharedListener<L>>>,
}

impl<K: Keeper, L: Listener> Promise<(Pass<Book<K>>, MirrorReader, Pass<SharedListener<L>>, bool)>
    for Attends<K, L> {
    ghost kept_by = { λ promise parts. IsBegun L.Peer.left L.Peer.taken L.Peer.written L.Peer.Source.faults L.Peer.ended promise.number.0
        promise.pass.value parts.0 promise.reader.value parts.1 promise.way.value parts.2 parts.3 };
}

/// Serves a peer that came to the desk, and then those that come after it, unless the desk has no thread. It may wait, for peers and
/// for both locks.
pub fn begin<K: Keeper, P: Link, L: Listener<Peer = P>, R: Wait>(
    rt: &R,
    alloc: Global,
    lock: &TurnLock<Book<K>>,
    shared: &TurnLock<SharedListener<L>>,
    alone: &Alone,
    number: DeskNo,
    desk: Desk<K, L>,
    first: P,
) -> Begun<K, L>
    requires same_lock { desk.pass.lock ≡ lock.now.lock }
    requires same_way_lock { desk.way.lock ≡ shared.now.lock }
    requires number { number.0 ≡ desk.pass.view.number }
    requires way_number { number.0 ≡ desk.way.view.number }
    requires desk { number.0 ≤ MAX_DESK }
    requires few_turns { length desk.pass.view.stops ≤ 2 ^ 56 }
    requires few_way_turns { length desk.way.view.stops < 2 ^ 57 }
    requires way { IsWay desk.way.view }
    requires came { NotesCame number.0 first [] desk.way.view.made }
    ensures { IsBegun P.left P.taken P.written P.Source.faults P.ended number.0 desk.pass result.pass desk.reader result.reader
        desk.way result.way result.is_over }
{
    let desk = serve_one(rt, alloc, lock, shared, number, desk, first);
    if alone.is(number) {
        return Begun {
            pass: desk.pass,
            reader: desk.reader,
            way: desk.way,
            is_over: false,
        };
    }
    let desk = go_further(rt, alloc, lock, shared, number, desk);
    Begun {
        pass: desk.pass,
        reader: desk.reader,
        way: desk.way,
        is_over: true,
    }
}

/// A desk's thread, or the desk itself where it has none: no thread could be made, and it has served its first peer, or no peer came.
pub type Running<K, L> = Result<PromisedHandle<Parts<K, L>, Attends<K, L>>, Begun<K, L>>;

/// A desk that was started, and what is promised of it.
#[derive(Drop)]
pub struct Started<K: Keeper, L: Listener> {
    pub promise: Attends<K, L>,
    pub running: Running<K, L>,
}

/// Lets the desk serve its first peer, if one came, and those that come after it in a thread of the scope. Where none can be made, it
/// has served the first one when this returns.
pub fn start<'s, E: 's, K: Keeper + Send + 's, L: Listener + Send + 's, R: Wait + Sync + 's>(
    rt: &'s R,
    alloc: Global,
    scope: &Scope<'s, E>,
    commons: &'s Commons<K, L>,
    number: DeskNo,
    desk: Desk<K, L>,
    first: Option<L::Peer>,
) -> Running<K, L>
    requires same_lock { desk.pass.lock ≡ commons.now.lock.lock }
    requires same_way_lock { desk.way.lock ≡ commons.now.shared.lock }
    requires number { number.0 ≡ desk.pass.view.number }
    requires way_number { number.0 ≡ desk.way.view.number }
    requires desk { number.0 ≤ MAX_DESK }
    requires few_turns { length desk.pass.view.stops ≤ 2 ^ 56 }
    requires few_way_turns { OnSome first (length desk.way.view.stops < 2 ^ 57) }
    requires way { IsWay desk.way.view }
    requires found { IsFirst number.0 first desk.way.view.made }
    ensures promised { IfOk result (λ thread. (thread.promise.number.0 ≡ number.0)
        × (thread.promise.pass.value ≡ desk.pass) × (thread.promise.reader.value ≡ desk.reader)
        × (thread.promise.way.value ≡ desk.way)) }
    ensures begun { IfErr result (λ begun. IsBegun L.Peer.left L.Peer.taken L.Peer.written L.Peer.Source.faults L.Peer.ended number.0
        desk.pass begun.pass desk.reader begun.reader desk.way begun.way begun.is_over) }
{
    match first {
        Some(first) => start_thread(rt, alloc, scope, commons, number, desk, first),
        None => Err(Begun {
            pass: desk.pass,
            reader: desk.reader,
            way: desk.way,
            is_over: true,
        }),
    }
}

// Lets the desk serve its first peer and those that come after it in a thread of the scope. Where none can be made, it has served the
// first one when this returns.
fn start_thread<'s, E: 's, K: Keeper + Send + 's, L: Listener + Send + 's, R: Wait + Sync + 's>(
    rt: &'s R,
    alloc: Global,
    scope: &Scope<'s, E>,
    commons: &'s Commons<K, L>,
    number: DeskNo,
    desk: Desk<K, L>,
    first: L::Peer,
) -> Running<K, L>
    requires same_lock { desk.pass.lock ≡ commons.now.lock.lock }
    requires same_way_lock { desk.way.lock ≡ commons.now.shared.lock }
    requires number { number.0 ≡ desk.pass.view.number }
    requires way_number { number.0 ≡ desk.way.view.number }
    requires desk { number.0 ≤ MAX_DESK }
    requires few_turns { length desk.pass.view.stops ≤ 2 ^ 56 }
    requires few_way_turns { length desk.way.view.stops < 2 ^ 57 }
    requires way { IsWay desk.way.view }
    requires came { NotesCame number.0 first [] desk.way.view.made }
    ensures promised { IfOk result (λ thread. (thread.promise.number.0 ≡ number.0)
        × (thread.promise.pass.value ≡ desk.pass) × (thread.promise.reader.value ≡ desk.reader)
        × (thread.promise.way.value ≡ desk.way)) }
    ensures begun { IfErr result (λ begun. IsBegun L.Peer.left L.Peer.taken L.Peer.written L.Peer.Source.faults L.Peer.ended number.0
        desk.pass begun.pass desk.reader begun.reader desk.way begun.way begun.is_over) }
{
    let Desk { pass, reader, way } = desk;
    let promise = Attends {
        number,
        pass: Snapshot::of(&pass),
        reader: Snapshot::of(&reader),
        way: Snapshot::of(&way),
    };
    let job = move || -> (Pass<Book<K>>, MirrorReader, Pass<SharedListener<L>>, bool)
        requires same_lock { pass.lock ≡ commons.now.lock.lock }
        requires same_way_lock { way.lock ≡ commons.now.shared.lock }
        requires number { number.0 ≡ pass.view.number }
        requires way_number { number.0 ≡ way.view.number }
        requires desk { number.0 ≤ MAX_DESK }
        requires few_turns { length pass.view.stops ≤ 2 ^ 56 }
        requires few_way_turns { length way.view.stops < 2 ^ 57 }
        requires way { IsWay way.view }
        requires came { NotesCame number.0 first [] way.view.made }
        ensures { IsBegun L.Peer.left L.Peer.taken L.Peer.written L.Peer.Source.faults L.Peer.ended number.0 pass result.0 reader result.1 way result.2 result.3 }
    {
        let desk = Desk { pass, reader, way };
        let begun = begin(
            rt,
            alloc,
            &commons.lock,
            &commons.shared,
            &commons.alone,
            number,
            desk,
            first,
        );
        (begun.pass, begun.reader, begun.way, begun.is_over)
    };
    match scope.spawn_with(promise, job) {
        Ok(thread) => Ok(thread),
        Err(refused) => {
            commons.alone.tell(number);
            let (pass, reader, way, is_over) = (refused.value)();
            Err(Begun {
                pass,
                reader,
                way,
                is_over,
            })
        }
    }
}

// What the desk has done, once its thread has ended, if it has one.
fn joined<K: Keeper, P: Link, L: Listener<Peer = P>, R: Threads>(
    rt: &R,
    started: Started<K, L>,
) -> Begun<K, L>
    requires promised { IfOk started.running (λ thread. (thread.promise.number.0 ≡ started.promise.number.0)
        × (thread.promise.pass.value ≡ started.promise.pass.value) × (thread.promise.reader.value ≡ started.promise.reader.value)
        × (thread.promise.way.value ≡ started.promise.way.value)) }
    requires begun { IfErr started.running (λ begun. IsBegun P.left P.taken P.written P.Source.faults P.ended started.promise.number.0
        started.promise.pass.value begun.pass started.promise.reader.value begun.reader
        started.promise.way.value begun.way begun.is_over) }
    ensures { IsBegun P.left P.taken P.written P.Source.faults P.ended started.promise.number.0
        started.promise.pass.value result.pass started.promise.reader.value result.reader
        started.promise.way.value result.way result.is_over }
{
    let Started {
        promise: _,
        running,
    } = started;
    match running {
        Ok(thread) => {
            let (pass, reader, way, is_over) = thread.join(rt);
            Begun {
                pass,
                reader,
                way,
                is_over,
            }
        }
        Err(begun) => begun,
    }
}

/// The desk, once it was told that no further peer comes. One that has no thread serves those that come after its first one here.
pub fn finish<K: Keeper, P: Link, L: Listener<Peer = P>, R: Threads + Wait>(
    rt: &R,
    alloc: Global,
    lock: &TurnLock<Book<K>>,
    shared: &TurnLock<SharedListener<L>>,
    started: Started<K, L>,
) -> Desk<K, L>
    requires same_lock { started.promise.pass.value.lock ≡ lock.now.lock }
    requires same_way_lock { started.promise.way.value.lock ≡ shared.now.lock }
    requires desk { started.promise.number.0 ≤ MAX_DESK }
    requires promised { IfOk started.running (λ thread. (thread.promise.number.0 ≡ started.promise.number.0)
        × (thread.promise.pass.value ≡ started.promise.pass.value) × (thread.promise.reader.value ≡ started.promise.reader.value)
        × (thread.promise.way.value ≡ started.promise.way.value)) }
    requires begun { IfErr started.running (λ begun. IsBegun P.left P.taken P.written P.Source.faults P.ended started.promise.number.0
        started.promise.pass.value begun.pass started.promise.reader.value begun.reader
        started.promise.way.value begun.way begun.is_over) }
    ensures { IsBegun P.left P.taken P.written P.Source.faults P.ended started.promise.number.0
        started.promise.pass.value result.pass started.promise.reader.value result.reader
        started.promise.way.value result.way true }
{
    let number = started.promise.number;
    let Begun {
        pass,
        reader,
        way,
        is_over,
    } = joined::<K, P, L, R>(rt, started);
    let desk = Desk { pass, reader, way };
    if is_over {
        return desk;
    }
    go_further(rt, alloc, lock, shared, number, desk)
}
