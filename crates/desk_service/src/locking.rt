//! The two locks that desks share: one round the book, and one round the listener.
ghost use Rattle.std.specs.Prelude.{◌≡◌, ℕ, ◌+◌, ◌<◌, ◌≤◌, length, IfOk, IfErr};
ghost use Rattle.stock_nums.specs.declared.limits.TheConstants.{MAX_DESK};
ghost use Rattle.turn_lock.specs.Views.{opened};
ghost use Rattle.session_laws.specs.Makers.{with_makers};
ghost use Rattle.generation_book.specs.Follows.{start_of};
ghost use Rattle.desk_service.specs.Locks.{IsLocked, IsNewWay};

use generation_book::book::Book;
use shared_listener::listener::SharedListener;
use std::alloc::Global;
use std::snapshot::Snapshot;
use stock_io::listener::Listener;
use stock_keeper::keeper::Keeper;
use turn_lock::lock::{NotMade, TurnLock};
use turn_lock::pass::Pass;

/// The book and the listener under locks, for so many desks that want so many peers, and pass 0 of each lock. Contracts see what was
/// put under them.
pub struct Locks<K: Keeper, L: Listener> {
    pub lock: TurnLock<Book<K>>,
    pub pass: Pass<Book<K>>,
    pub shared: TurnLock<SharedListener<L>>,
    pub way: Pass<SharedListener<L>>,
    pub desks: u32,
    pub connections: u32,
    pub book: Snapshot<Book<K>>,
    pub listener: Snapshot<L>,
}

/// Memory was wanting for the locks. Both come back.
#[derive(Drop)]
pub struct NotLocked<K: Keeper, L> {
    pub book: Book<K>,
    pub listener: L,
}

/// Puts the book and the listener under locks, for so many desks that want so many peers.
pub fn lock_both<K: Keeper, L: Listener + Drop>(
    alloc: Global,
    book: Book<K>,
    listener: L,
    desks: u32,
    connections: u32,
) -> Result<Locks<K, L>, NotLocked<K, L>>
    requires desks { desks ≤ MAX_DESK }
    ensures book { IfOk result (λ locks. locks.book.value ≡ book) }
    ensures listener { IfOk result (λ locks. locks.listener.value ≡ listener) }
    ensures desks { IfOk result (λ locks. (locks.desks ≡ desks) × (locks.connections ≡ connections)) }
    ensures locked { IfOk result (λ locks. IsLocked locks.lock locks.pass.lock locks.desks) }
    ensures pass { IfOk result (λ locks. locks.pass.view ≡ opened (with_makers book.history) book.keeper.faults (start_of book)) }
    ensures shared { IfOk result (λ locks. IsLocked locks.shared locks.way.lock locks.desks) }
    ensures way { IfOk result (λ locks. IsNewWay listener desks connections locks.way.view) }
    ensures not_locked { IfErr result (λ refused. (refused.book ≡ book) × (refused.listener ≡ listener)) }
{
    let first = Snapshot::of(&book);
    let source = Snapshot::of(&listener);
    let (shared, way) = match share(alloc, listener, desks, connections) {
        Ok(made) => made,
        Err(listener) => return Err(NotLocked { book, listener }),
    };
    match TurnLock::new(alloc, book, desks + 1) {
        Ok((lock, pass)) => Ok(Locks {
            lock,
            pass,
            shared,
            way,
            desks,
            connections,
            book: first,
            listener: source,
        }),
        Err(NotMade { book }) => Err(NotLocked {
            book,
            listener: take_back(shared, way),
        }),
    }
}

// A lock round the listener, and pass 0. The listener comes back where memory is wanting.
fn share<L: Listener>(
    alloc: Global,
    listener: L,
    desks: u32,
    connections: u32,
) -> Result<(TurnLock<SharedListener<L>>, Pass<SharedListener<L>>), L>
    requires desks { desks ≤ MAX_DESK }
    ensures shared { IfOk result (λ made. IsLocked made.0 made.1.lock desks) }
    ensures way { IfOk result (λ made. IsNewWay listener desks connections made.1.view) }
    ensures not_shared { IfErr result (λ back. back ≡ listener) }
{
    let shared = SharedListener::new(listener, desks, connections);
    match TurnLock::new(alloc, shared, desks + 1) {
        Ok(made) => Ok(made),
        Err(NotMade { book }) => Err(book.into_listener()),
    }
}

// Ends a lock under which no desk did anything.
fn take_back<L: Listener>(shared: TurnLock<SharedListener<L>>, way: Pass<SharedListener<L>>) -> L
    requires same_lock { way.lock ≡ shared.lock }
    requires zero { way.view.number ≡ 0 }
    requires all_joined { length way.view.joined ≡ way.view.split }
    ensures { (listener : L) (desks wanted : ℕ) → IsNewWay listener desks wanted way.view → result ≡ listener }
{
    shared.close(way).into_listener()
}
