//! A service over a ledger that is kept nowhere.
ghost use Rattle.std.specs.Prelude.{◌<◌, ◌≤◌};
ghost use Rattle.stock_nums.specs.declared.limits.TheConstants.{MAX_DESK};

use desk_service::service::serve;
use repost_worker::revalued_book::RevaluedBook;
use std::alloc::Global;
use std::sync::Wait;
use std::thread::Threads;
use stock_io::link::Link;
use stock_io::listener::Listener;
use stock_keeper::nowhere::Nowhere;
use stock_nums::numbers::RecordNo;

/// What a service leaves: how many peers it accepted and how many records, and its listener.
#[derive(Drop)]
pub struct Ending<L> {
    pub accepted: u32,
    pub records: RecordNo,
    pub listener: L,
}

/// Serves so many peers by so many desks; none where memory is wanting. It stands for any listener, so that no test carries the clauses of
/// a service at its own.
pub fn served<P: Link, L: Listener<Peer = P> + Send + Drop, R: Threads + Wait + Sync>(
    rt: &R,
    alloc: Global,
    listener: L,
    desks: u32,
    connections: u32,
) -> Option<Ending<L>>
    requires desks { (0 < desks) × (desks ≤ MAX_DESK) }
    requires connections { desks ≤ connections }
{
    let (book, build) = RevaluedBook::<Nowhere>::start(alloc).into_parts();
    let Ok(served) = serve(rt, alloc, book, build, listener, desks, connections) else {
        return None;
    };
    Some(Ending {
        accepted: served.accepted,
        records: served.book.accepted(),
        listener: served.listener,
    })
}
