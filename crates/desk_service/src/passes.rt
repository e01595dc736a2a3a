//! The passes of a lock's desks: split off pass 0 before the desks begin, and joined into it once they have ended.
ghost use Rattle.std.specs.Prelude.{◌≡◌, ◌+◌, ◌<◌, ◌≤◌, [], All, vec_len, vec_capacity};
ghost use Rattle.turn_lock.specs.Histories.{BeginsWith};
ghost use Rattle.desk_service.specs.Passes.{passes_from, joined_all};

use turn_lock::lock::TurnLock;
use turn_lock::logged::Logged;
use turn_lock::pass::Pass;

/// Pass 0, and the passes that were split off it, the first of them last.
#[derive(Drop)]
pub struct Split<B: Logged> {
    pub pass: Pass<B>,
    pub passes: Vec<Pass<B>>,
}

/// Splits so many passes off pass 0, into an empty vector that has room for them.
pub fn split_all<B: Logged>(
    lock: &TurnLock<B>,
    pass: Pass<B>,
    room: Vec<Pass<B>>,
    desks: u32,
) -> Split<B>
    requires same_lock { pass.lock ≡ lock.now.lock }
    requires zero { pass.view.number ≡ 0 }
    requires seats { pass.view.split + desks < lock.now.seats }
    requires empty { room.items ≡ [] }
    requires room { desks ≤ vec_capacity room }
    ensures same_lock { result.pass.lock ≡ pass.lock }
    ensures pass { result.pass.view ≡ record pass.view { split = pass.view.split + desks } }
    ensures passes { result.passes.items ≡ passes_from pass.lock pass.view (pass.view.split + 1) desks }
    ensures len { vec_len result.passes ≡ desks }
    ensures room { vec_capacity room ≤ vec_capacity result.passes }
{
    if desks == 0 {
        return Split { pass, passes: room };
    }
    let Ok((pass, first)) = lock.split(pass) else {
        unreachable!()
    };
    let Split { pass, mut passes } = split_all(lock, pass, room, desks - 1);
    match passes.push(first) {
        Ok(()) => Split { pass, passes },
        Err(_) => unreachable!(),
    }
}

/// Joins all these passes into pass 0, the last of them first.
pub fn join_all<B: Logged>(lock: &TurnLock<B>, pass: Pass<B>, mut passes: Vec<Pass<B>>) -> Pass<B>
    requires same_lock { pass.lock ≡ lock.now.lock }
    requires of_lock { All (λ other. other.lock ≡ lock.now.lock) passes.items }
    requires zero { pass.view.number ≡ 0 }
    ensures same_lock { result.lock ≡ pass.lock }
    ensures joined { result.view ≡ joined_all pass.view passes.items }
    ensures saw_own { BeginsWith result.view.seen pass.view.seen }
    ensures saw_all { All (λ other. BeginsWith result.view.seen other.view.seen) passes.items }
    ensures no_fewer_faults { pass.view.seen_faults ≤ result.view.seen_faults }
    ensures counted_all { All (λ other. other.view.seen_faults ≤ result.view.seen_faults) passes.items }
{
    match passes.pop() {
        Some(other) => join_all(lock, lock.join(pass, other), passes),
        None => pass,
    }
}
