//! A service: several desks and a worker in threads of their own, over one book and one listener.
ghost use Rattle.std.specs.Prelude.{◌≡◌, ◌+◌, ◌<◌, ◌≤◌, [], All, length, true, vec_len, vec_capacity, IfOk, IfErr};
ghost use Rattle.stock_nums.specs.declared.limits.TheConstants.{MAX_DESK};
ghost use Rattle.stock_io.specs.Heard.{heard};
ghost use Rattle.stock_io.specs.Listeners.{IsFresh};
ghost use Rattle.turn_lock.specs.Histories.{BeginsWith};
ghost use Rattle.turn_lock.specs.Views.{opened};
ghost use Rattle.stock_model.specs.History.{covered_records, IsLegal};
ghost use Rattle.generation_book.specs.Follows.{start_of, Follows};
ghost use Rattle.repost_worker.specs.Turns.{IsWorkOf};
ghost use Rattle.session_laws.specs.Makers.{with_makers, without_makers};
ghost use Rattle.desk_service.specs.Endings.{IsClosed, IsUnshared};
ghost use Rattle.desk_service.specs.Desks.{IsBegun};
ghost use Rattle.desk_service.specs.Locks.{IsLocked, IsNewWay};
ghost use Rattle.desk_service.specs.Passes.{ArePassesFrom};
ghost use Rattle.desk_service.specs.Service.{IsService, AreServedBy};
ghost use Rattle.desk_service.specs.Serving.{Serving};
ghost use Rattle.desk_service.specs.Teams.{IsTeamwork};
ghost use Rattle.desk_service.specs.Ways.{AreWaysFrom};

use crate::accepting::{Desks, accept_all};
use crate::alone::Alone;
use crate::closing::Closing;
use crate::commons::Commons;
use crate::ending::{Unshared, close_all, unshare};
use crate::ending_writer::EndingWriter;
use crate::equipment::{Equipment, equip};
use crate::locking::{Locks, NotLocked, lock_both};
use crate::meeting::meet_all;
use crate::passes::{Split, split_all};
use crate::worker::{Worker, work};
use generation_book::book::Book;
use report_mirror::mirror::MirrorWriter;
use repost_build::build::Build;
use shared_listener::listener::SharedListener;
use std::alloc::Global;
use std::marker::Brand;
use std::sync::Wait;
use std::sync::ledger::{Blank, Ledger};
use std::thread;
use std::thread::Threads;
use stock_io::link::Link;
use stock_io::listener::Listener;
use stock_keeper::keeper::Keeper;
use stock_laws::selected_laws::the_ledger_keeps_the_stock;
use stock_nums::memory::NoMemory;
use stock_nums::numbers::DeskNo;
use turn_lock::lock::TurnLock;
use turn_lock::pass::Pass;

/// What a service leaves: the book, the build that works for it, the listener, and how many peers were served.
#[derive(Drop)]
pub struct Served<K: Keeper, L> {
    pub book: Book<K>,
    pub build: Build,
    pub listener: L,
    pub accepted: u32,
}

/// Memory was wanting for a service, and nothing was done. All comes back.
#[derive(Drop)]
pub struct NotServed<K: Keeper, L> {
    pub book: Book<K>,
    pub build: Build,
    pub listener: L,
}

// A worker, who shows what it publishes, and desks.
struct Team<K: Keeper, L: Listener> {
    worker: Worker<K>,
    writer: MirrorWriter,
    desks: Desks<K, L>,
}

/// Accepts so many peers and serves them by so many desks, each in a thread of its own, while a worker in another thread values,
/// publishes, and shows what it published in a mirror, where desks read reports without the book's lock. The first peers come to the desks in the order of their numbers, one to each. Behind them a desk takes the next peer once
/// its own was served and hung up. Returns once all sessions have ended. Where a peer can't be had, no further one is accepted. It may
/// wait, for peers and for the locks.
///
/// # Errors
///
/// `NotServed` where memory was wanting, before any peer was accepted.
pub fn serve<
    K: Keeper + Send,
    P: Link,
    L: Listener<Peer = P> + Send + Drop,
    R: Threads + Wait + Sync,
>(
    rt: &R,
    alloc: Global,
    book: Book<K>,
    build: Build,
    listener: L,
    desks: u32,
    connections: u32,
) -> Result<Served<K, L>, NotServed<K, L>>
    requires desks { (0 < desks) × (desks ≤ MAX_DESK) }
    requires connections { desks ≤ connections }
    requires work { IsWorkOf book.history build }
    ensures served { IfOk result (λ served. IsService
        (AreServedBy P.left P.taken P.written P.Source.faults P.ended)
        (IsFresh P.taken P.written P.Source.faults P.ended)
        desks connections served.accepted book.history served.book.history book.keeper.faults served.book.keeper.faults
        (heard L.waiting L.hung_up L.accepts L.hang_ups L.faults listener)
        (heard L.waiting L.hung_up L.accepts L.hang_ups L.faults served.listener)) }
    ensures follows { IfOk result (λ served. Follows (start_of book) served.book) }
    ensures port_kept { IfOk result (λ served. L.listens_to served.listener ≡ L.listens_to listener) }
    ensures work { IfOk result (λ served. IsWorkOf served.book.history served.build) }
    ensures not_served { IfErr result (λ refused.
        (refused.book ≡ book) × (refused.build ≡ build) × (refused.listener ≡ listener)) }
{
    let Equipment { writer, room } = match equip(rt, alloc, &book, desks) {
        Ok(equipment) => equipment,
        Err(NoMemory) => {
            return Err(NotServed {
                book,
                build,
                listener,
            });
        }
    };
    match lock_both(alloc, book, listener, desks, connections) {
        Ok(locks) => Ok(serve_under(rt, alloc, locks, build, writer, room)),
        Err(NotLocked { book, listener }) => {
            writer.end(rt);
            Err(NotServed {
                book,
                build,
                listener,
            })
        }
    }
}

// Lets desks and a worker do their work over what is under the locks, and ends the locks.
fn serve_under<
    K: Keeper + Send,
    P: Link,
    L: Listener<Peer = P> + Send + Drop,
    R: Threads + Wait + Sync,
>(
    rt: &R,
    alloc: Global,
    locks: Locks<K, L>,
    build: Build,
    writer: MirrorWriter,
    room: Desks<K, L>,
) -> Served<K, L>
    requires desks { (0 < locks.desks) × (locks.desks ≤ MAX_DESK) }
    requires locked { IsLocked locks.lock locks.pass.lock locks.desks }
    requires pass { locks.pass.view
        ≡ opened (with_makers locks.book.value.history) locks.book.value.keeper.faults (start_of locks.book.value) }
    requires shared { IsLocked locks.shared locks.way.lock locks.desks }
    requires way { IsNewWay locks.listener.value locks.desks locks.connections locks.way.view }
    requires work { IsWorkOf locks.book.value.history build }
    requires shown { writer ≡ covered_records locks.book.value.history }
    requires empty { (room.passes.items ≡ []) × (room.ways.items ≡ []) }
    requires readers { vec_len room.readers ≡ locks.desks }
    requires passes_room { locks.desks ≤ vec_capacity room.passes }
    requires ways_room { locks.desks ≤ vec_capacity room.ways }
    ensures served { IsService
        (AreServedBy P.left P.taken P.written P.Source.faults P.ended)
        (IsFresh P.taken P.written P.Source.faults P.ended)
        locks.desks locks.connections result.accepted locks.book.value.history result.book.history
        locks.book.value.keeper.faults result.book.keeper.faults
        (heard L.waiting L.hung_up L.accepts L.hang_ups L.faults locks.listener.value)
        (heard L.waiting L.hung_up L.accepts L.hang_ups L.faults result.listener) }
    ensures follows { Follows (start_of locks.book.value) result.book }
    ensures port_kept { L.listens_to result.listener ≡ L.listens_to locks.listener.value }
    ensures work { IsWorkOf result.book.history result.build }
{
    let Locks {
        lock,
        pass,
        shared,
        way,
        desks,
        connections: _,
        book: _,
        listener: _,
    } = locks;
    let Desks {
        passes,
        readers,
        ways,
    } = room;
    let Split { pass, passes } = split_all(&lock, pass, passes, desks);
    let Split {
        pass: way,
        passes: ways,
    } = split_all(&shared, way, ways, desks);
    let team = Team {
        worker: Worker { pass, build },
        writer,
        desks: Desks {
            passes,
            readers,
            ways,
        },
    };
    let commons = Commons {
        lock,
        shared,
        alone: Alone::new(),
    };
    let team = in_threads::<K, L, Brand, &R, R>(rt, rt, alloc, &commons, team, Blank::new(1));
    let Commons {
        lock,
        shared,
        alone: _,
    } = commons;
    the_ledger_keeps_the_stock();
    ended(rt, lock, shared, way, team)
}

// Lets the worker and the desks do their work in threads of their own. Where none can be made for the worker, it begins once the desks
// have ended, and so ends at once.
fn in_threads<
    K: Keeper + Send,
    L: Listener + Send + Drop,
    N: Ledger + Send,
    W: Wait + Send + Drop,
    R: Threads + Wait + Sync,
>(
    rt: &R,
    waits: W,
    alloc: Global,
    commons: &Commons<K, L>,
    team: Team<K, L>,
    blank: Blank,
) -> Team<K, L>
    requires same_lock { team.worker.pass.lock ≡ commons.now.lock.lock }
    requires zero { team.worker.pass.view.number ≡ 0 }
    requires work { IsWorkOf (without_makers team.worker.pass.view.seen) team.worker.build }
    requires shown { BeginsWith (covered_records (without_makers team.worker.pass.view.seen)) team.writer }
    requires passes { ArePassesFrom commons.now.lock.lock 1 team.desks.passes.items }
    requires ways { AreWaysFrom commons.now.shared.lock 1 team.desks.ways.items }
    requires as_many { (vec_len team.desks.ways ≡ vec_len team.desks.passes) × (vec_len team.desks.readers ≡ vec_len team.desks.passes) }
    requires numbers { vec_len team.desks.passes ≤ MAX_DESK }
    requires name { blank.name ≡ N.name }
    requires parts { blank.parts ≡ N.parts }
    requires some_parts { 0 < N.parts }
    ensures teamwork { IsTeamwork
        (λ desk work. IsBegun L.Peer.left L.Peer.taken L.Peer.written L.Peer.Source.faults L.Peer.ended desk work.pass work.pass_then work.read work.read_then work.way work.way_then true)
        team.worker.pass team.worker.build team.writer result.worker.pass result.worker.build result.writer
        team.desks.passes.items result.desks.passes.items team.desks.readers.items result.desks.readers.items
        team.desks.ways.items result.desks.ways.items }
{
    let Team {
        worker,
        writer,
        desks,
    } = team;
    let mirror = EndingWriter { waits, writer };
    let Desks {
        passes,
        readers,
        ways,
    } = desks;
    let closing = Closing::new();
    let (lock, end) = (&commons.lock, &closing);
    let ((worker, mirror), (passes, readers, ways)) = thread::join(
        rt,
        || work::<K, N, W, R>(rt, alloc, lock, end, worker, mirror, blank),
        ||
            requires passes { ArePassesFrom commons.now.lock.lock 1 passes.items }
            requires ways { AreWaysFrom commons.now.shared.lock 1 ways.items }
            requires as_many { (vec_len ways ≡ vec_len passes) × (vec_len readers ≡ vec_len passes) }
            requires numbers { vec_len passes ≤ MAX_DESK }
        {
            let desks = Desks {
                passes,
                readers,
                ways,
            };
            let desks = attend_all::<K, L, R>(rt, alloc, commons, end, desks);
            (desks.passes, desks.readers, desks.ways)
        },
    );
    let (_, writer) = mirror.into_parts();
    Team {
        worker,
        writer,
        desks: Desks {
            passes,
            readers,
            ways,
        },
    }
}

// Serves the peers, at desks in threads of their own, and says then that the desks have ended.
fn attend_all<K: Keeper + Send, L: Listener + Send + Drop, R: Threads + Wait + Sync>(
    rt: &R,
    alloc: Global,
    commons: &Commons<K, L>,
    closing: &Closing,
    desks: Desks<K, L>,
) -> Desks<K, L>
    requires passes { ArePassesFrom commons.now.lock.lock 1 desks.passes.items }
    requires ways { AreWaysFrom commons.now.shared.lock 1 desks.ways.items }
    requires as_many { (vec_len desks.ways ≡ vec_len desks.passes) × (vec_len desks.readers ≡ vec_len desks.passes) }
    requires numbers { vec_len desks.passes ≤ MAX_DESK }
    ensures serving { Serving
        (λ desk work. IsBegun L.Peer.left L.Peer.taken L.Peer.written L.Peer.Source.faults L.Peer.ended desk work.pass work.pass_then work.read work.read_then work.way work.way_then true)
        1 desks.passes.items result.passes.items desks.readers.items result.readers.items desks.ways.items result.ways.items }
{
    let desks = thread::scope(
        thread::scope_env(),
        rt,
        move |scope| -> Desks<K, L>
            requires passes { ArePassesFrom commons.now.lock.lock 1 desks.passes.items }
            requires ways { AreWaysFrom commons.now.shared.lock 1 desks.ways.items }
            requires as_many { (vec_len desks.ways ≡ vec_len desks.passes) × (vec_len desks.readers ≡ vec_len desks.passes) }
            requires numbers { vec_len desks.passes ≤ MAX_DESK }
            ensures serving { Serving
                (λ desk work. IsBegun L.Peer.left L.Peer.taken L.Peer.written L.Peer.Source.faults L.Peer.ended desk work.pass work.pass_then work.read work.read_then work.way work.way_then true)
                1 desks.passes.items result.passes.items desks.readers.items result.readers.items desks.ways.items result.ways.items }
        { accept_all(rt, alloc, scope, commons, DeskNo(1), desks) },
    );
    closing.close();
    desks
}

// Ends the mirror, once each reader has read what was shown last, and both locks.
fn ended<K: Keeper, L: Listener, R: Wait>(
    rt: &R,
    lock: TurnLock<Book<K>>,
    shared: TurnLock<SharedListener<L>>,
    way: Pass<SharedListener<L>>,
    team: Team<K, L>,
) -> Served<K, L>
    requires same_lock { team.worker.pass.lock ≡ lock.lock }
    requires of_lock { All (λ other. other.lock ≡ lock.lock) team.desks.passes.items }
    requires zero { team.worker.pass.view.number ≡ 0 }
    requires none_joined { team.worker.pass.view.joined ≡ [] }
    requires split { team.worker.pass.view.split ≡ length team.desks.passes.items }
    requires same_way_lock { way.lock ≡ shared.lock }
    requires of_way_lock { All (λ other. other.lock ≡ shared.lock) team.desks.ways.items }
    requires way_zero { way.view.number ≡ 0 }
    requires no_way_joined { way.view.joined ≡ [] }
    requires ways_split { way.view.split ≡ length team.desks.ways.items }
    ensures met { All (λ read. BeginsWith team.writer read) team.desks.readers.items }
    ensures closed { IsClosed team.worker.pass.view team.desks.passes.items (with_makers result.book.history) result.book.keeper.faults }
    ensures legal { IsLegal result.book.history }
    ensures follows { Follows team.worker.pass.view.start result.book }
    ensures unshared { IsUnshared (heard L.waiting L.hung_up L.accepts L.hang_ups L.faults) L.listens_to
        (IsFresh L.Peer.taken L.Peer.written L.Peer.Source.faults L.Peer.ended) way.view team.desks.ways.items result.listener
        result.accepted }
    ensures build { result.build ≡ team.worker.build }
{
    let Team {
        worker,
        writer,
        desks,
    } = team;
    let Worker { pass, build } = worker;
    let Desks {
        passes,
        readers,
        ways,
    } = desks;
    meet_all(rt, readers, &writer);
    writer.end(rt);
    let Unshared { listener, accepted } = unshare(shared, way, ways);
    let book = close_all(lock, pass, passes);
    // Whatever threads did to the book, its history is legal: its own counts tell so.
    let _records = book.accepted();
    Served {
        book,
        build,
        listener,
        accepted,
    }
}
