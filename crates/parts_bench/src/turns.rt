//! Turns at the lock.
ghost use Rattle.std.specs.Prelude.{◌≡◌, ◌+◌, ◌<◌, []};

use crate::notes::Notes;
use std::alloc::Global;
use std::sync::Wait;
use std::thread;
use std::thread::Threads;
use turn_lock::lock::TurnLock;
use turn_lock::pass::Pass;

// Takes so many turns, and adds an event in each.
fn add_all<R: Wait>(
    rt: &R,
    lock: &TurnLock<Notes>,
    mut pass: Pass<Notes>,
    maker: u32,
    turns: u32,
) -> Pass<Notes>
    requires same_lock { pass.lock ≡ lock.now.lock }
    requires maker { pass.view.number ≡ maker }
    requires fresh { pass.view.stops ≡ [] }
    ensures same_lock { result.lock ≡ pass.lock }
    ensures maker { result.view.number ≡ maker }
    ensures others { (result.view.split ≡ pass.view.split) × (result.view.joined ≡ pass.view.joined) }
{
    for event in 0..turns {
        let mut held = lock.take(rt, pass);
        held.book().add(maker, event);
        pass = lock.give(held);
    }
    pass
}

// The same in two threads.
fn add_in_two<R: Wait + Threads + Sync>(
    rt: &R,
    lock: &TurnLock<Notes>,
    first: Pass<Notes>,
    second: Pass<Notes>,
    maker: u32,
    turns: u32,
) -> (Pass<Notes>, Pass<Notes>)
    requires same_lock { (first.lock ≡ lock.now.lock) × (second.lock ≡ lock.now.lock) }
    requires makers { (first.view.number ≡ maker) × (second.view.number ≡ maker + 1) × (maker < 16) }
    requires fresh { (first.view.stops ≡ []) × (second.view.stops ≡ []) }
    ensures same_lock { (result.0.lock ≡ first.lock) × (result.1.lock ≡ second.lock) }
    ensures maker { result.0.view.number ≡ maker }
    ensures others { (result.0.view.split ≡ first.view.split) × (result.0.view.joined ≡ first.view.joined) }
{
    thread::join(
        rt,
        || add_all(rt, lock, first, maker, turns),
        || add_all(rt, lock, second, maker + 1, turns),
    )
}

fn count_of_two<R: Wait + Threads + Sync>(rt: &R, alloc: Global, turns: u32) -> Option<usize> {
    let (lock, pass) = TurnLock::new(alloc, Notes::new(alloc), 2).ok()?;
    let Ok((pass, first)) = lock.split(pass) else {
        unreachable!()
    };
    let (pass, first) = add_in_two(rt, &lock, pass, first, 0, turns);
    let pass = lock.join(pass, first);
    Some(lock.close(pass).count())
}

fn count_of_four<R: Wait + Threads + Sync>(rt: &R, alloc: Global, turns: u32) -> Option<usize> {
    let (lock, pass) = TurnLock::new(alloc, Notes::new(alloc), 4).ok()?;
    let Ok((pass, first)) = lock.split(pass) else {
        unreachable!()
    };
    let Ok((pass, second)) = lock.split(pass) else {
        unreachable!()
    };
    let Ok((pass, third)) = lock.split(pass) else {
        unreachable!()
    };
    let shared = &lock;
    let ((pass, first), (second, third)) = thread::join(
        rt,
        ||
            requires { (pass.lock ≡ shared.now.lock) × (first.lock ≡ shared.now.lock) × (pass.view.number ≡ 0) × (first.view.number ≡ 1) × (pass.view.stops ≡ []) × (first.view.stops ≡ []) }
        { add_in_two(rt, shared, pass, first, 0, turns) },
        ||
            requires { (second.lock ≡ shared.now.lock) × (third.lock ≡ shared.now.lock) × (second.view.number ≡ 2) × (third.view.number ≡ 3) × (second.view.stops ≡ []) × (third.view.stops ≡ []) }
        { add_in_two(rt, shared, second, third, 2, turns) },
    );
    let pass = lock.join(pass, first);
    let pass = lock.join(pass, second);
    let pass = lock.join(pass, third);
    Some(lock.close(pass).count())
}

/// How many events there are after two or four threads took their turns, or None for want of memory.
pub fn count<R: Wait + Threads + Sync>(
    rt: &R,
    alloc: Global,
    four: bool,
    turns: u32,
) -> Option<usize> {
    if four {
        count_of_four(rt, alloc, turns)
    } else {
        count_of_two(rt, alloc, turns)
    }
}
