//! What a service needs besides its locks.
ghost use Rattle.std.specs.Prelude.{◌≡◌, ◌<◌, ◌≤◌, [], vec_len, vec_capacity, IfOk};
ghost use Rattle.stock_nums.specs.declared.limits.TheConstants.{MAX_DESK};
ghost use Rattle.stock_model.specs.History.{covered_records};

use crate::accepting::Desks;
use generation_book::book::Book;
use mirrored_worker::next_generation::first_generation;
use report_mirror::mirror::{Mirror, MirrorWriter, show_to};
use std::alloc::Global;
use std::sync::Wait;
use stock_io::listener::Listener;
use stock_keeper::keeper::Keeper;
use stock_nums::memory::NoMemory;

/// A mirror that shows what the book covers, and for each desk a reader of it, and room for a pass and a way.
pub struct Equipment<K: Keeper, L: Listener> {
    pub writer: MirrorWriter,
    pub room: Desks<K, L>,
}

/// What so many desks need over this book. The only error is want of memory.
pub fn equip<K: Keeper, L: Listener, R: Wait>(
    rt: &R,
    alloc: Global,
    book: &Book<K>,
    desks: u32,
) -> Result<Equipment<K, L>, NoMemory>
    requires desks { (0 < desks) × (desks ≤ MAX_DESK) }
    ensures shown { IfOk result (λ made. made.writer ≡ covered_records book.now.history) }
    ensures empty { IfOk result (λ made. (made.room.passes.items ≡ []) × (made.room.ways.items ≡ [])) }
    ensures readers { IfOk result (λ made. vec_len made.room.readers ≡ desks) }
    ensures passes_room { IfOk result (λ made. desks ≤ vec_capacity made.room.passes) }
    ensures ways_room { IfOk result (λ made. desks ≤ vec_capacity made.room.ways) }
{
    let passes = Vec::with_capacity(alloc, desks as usize)?;
    let ways = Vec::with_capacity(alloc, desks as usize)?;
    let first = first_generation(alloc, book)?;
    let Mirror { writer, readers } = show_to(rt, alloc, first, desks as usize)?;
    Ok(Equipment {
        writer,
        room: Desks {
            passes,
            readers,
            ways,
        },
    })
}
