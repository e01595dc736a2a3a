//! A desk that serves one peer.
ghost use Rattle.std.specs.Prelude.{◌≡◌, ◌≤◌, []};
ghost use Rattle.stock_nums.specs.declared.limits.TheConstants.{MAX_DESK};

use generation_book::book::Book;
use mirrored_desk::session::{Left, serve_desk_mirrored};
use report_mirror::reader::MirrorReader;
use std::alloc::Global;
use std::sync::Wait;
use stock_io::link::Link;
use stock_keeper::keeper::Keeper;
use stock_nums::numbers::DeskNo;
use turn_lock::lock::TurnLock;
use turn_lock::pass::Pass;

/// Serves the peer of the link. It stands for any book and link, so that no caller carries the clauses of a session at those in memory.
pub fn attended<K: Keeper, P: Link, R: Wait>(
    rt: &R,
    alloc: Global,
    lock: &TurnLock<Book<K>>,
    number: DeskNo,
    pass: Pass<Book<K>>,
    reader: MirrorReader,
    link: &mut P,
) -> Left<K>
    requires same_lock { pass.lock ≡ lock.now.lock }
    requires number { number.0 ≡ pass.view.number }
    requires desk { number.0 ≤ MAX_DESK }
    requires fresh { pass.view.stops ≡ [] }
    ensures same_lock { result.pass.lock ≡ pass.lock }
{
    serve_desk_mirrored(rt, alloc, lock, pass, reader, number, link)
}
