//! Threads that take turns at a small value in memory.
ghost use Rattle.std.specs.Prelude.{◌≡◌, ◌+◌, ◌<◌, [], All, None, ⊤};
ghost use Rattle.turn_lock.specs.Histories.{BeginsWith, past};

use std::sync::Wait;
use std::test::Fail;
use std::thread;
use std::thread::Threads;
use turn_lock::lock::TurnLock;
use turn_lock::logged::Logged;
use turn_lock::pass::Pass;

/// Events in memory, each with the number of its maker.
#[derive(Drop)]
struct Notes {
    events: Vec<(u32, u32)>,
}

impl Logged for Notes {
    type Event = u32;

    ghost history = { λ notes. notes.events.items };

    ghost faults = { λ _. 0 };

    // Nothing is told of calls.
    ghost start = { λ _. record { plan = None; calls = 0; events = 0 } };

    ghost follows = { λ _ _. ⊤ };

    ghost starts = { λ _. tt };
}

impl Notes {
    // Adds an event, or nothing where memory is wanting.
    fn add(&mut self, maker: u32, event: u32)
        ensures begins { BeginsWith self.new.events.items self.old.events.items }
        ensures own { All (λ e. e.0 ≡ maker) (past self.old.events.items self.new.events.items) }
    {
        if self.events.push((maker, event)).is_err() {}
    }

    // The events of one maker, in their order.
    fn are_in_order(&self, maker: u32, count: u32) -> bool {
        let mut next = 0u32;
        for (by, event) in self.events.iter() {
            if *by == maker {
                if *event != next {
                    return false;
                }
                next = next.saturating_add(1);
            }
        }
        next == count
    }
}

// Takes so many turns, and adds an event in each.
fn add_all<R: Wait>(
    rt: &R,
    lock: &TurnLock<Notes>,
    mut pass: Pass<Notes>,
    maker: u32,
    turns: u32,
) -> Pass<Notes>
    requires same_lock { pass.lock ≡ lock.now.lock }
    requires maker { pass.view.number ≡ maker }
    requires fresh { pass.view.stops ≡ [] }
    ensures same_lock { result.lock ≡ pass.lock }
    ensures maker { result.view.number ≡ maker }
    ensures others { (result.view.split ≡ pass.view.split) × (result.view.joined ≡ pass.view.joined) }
{
    for event in 0..turns {
        let mut held = lock.take(rt, pass);
        held.book().add(maker, event);
        pass = lock.give(held);
    }
    pass
}

// The same in two threads, of which the second takes more turns.
fn add_in_two<R: Wait + Threads + Sync>(
    rt: &R,
    lock: &TurnLock<Notes>,
    first: Pass<Notes>,
    second: Pass<Notes>,
    maker: u32,
    turns: u32,
) -> (Pass<Notes>, Pass<Notes>)
    requires same_lock { (first.lock ≡ lock.now.lock) × (second.lock ≡ lock.now.lock) }
    requires makers { (first.view.number ≡ maker) × (second.view.number ≡ maker + 1) × (maker < 16) }
    requires fresh { (first.view.stops ≡ []) × (second.view.stops ≡ []) }
    ensures same_lock { (result.0.lock ≡ first.lock) × (result.1.lock ≡ second.lock) }
    ensures maker { result.0.view.number ≡ maker }
    ensures others { (result.0.view.split ≡ first.view.split) × (result.0.view.joined ≡ first.view.joined) }
{
    let more = turns.saturating_mul(50);
    thread::join(
        rt,
        || add_all(rt, lock, first, maker, turns),
        || add_all(rt, lock, second, maker + 1, more),
    )
}

#[test]
fn two_threads_add_a_hundred_events_each(rt: HostRuntime) -> Result<(), Fail> {
    let notes = Notes {
        events: Vec::new(rt.alloc()),
    };
    let Ok((lock, pass)) = TurnLock::new(rt.alloc(), notes, 3) else {
        panic!(rt; "no memory")
    };
    let Ok((pass, first)) = lock.split(pass) else {
        unreachable!()
    };
    let Ok((pass, second)) = lock.split(pass) else {
        unreachable!()
    };
    let shared = &lock;
    let (first, second) = thread::join(
        &rt,
        || add_all(&rt, shared, first, 1, 100),
        || add_all(&rt, shared, second, 2, 100),
    );
    assert_eq!(rt; (first.gives(), second.gives()), (100, 100));
    let pass = lock.join(pass, second);
    let pass = lock.join(pass, first);
    assert_eq!(rt; pass.gives(), 0);
    let notes = lock.close(pass);
    assert_eq!(rt; notes.events.len(), 200);
    assert!(rt; notes.are_in_order(1, 100) && notes.are_in_order(2, 100));
    Ok(())
}

#[test]
fn four_threads_of_uneven_work_end_alike(rt: HostRuntime) -> Result<(), Fail> {
    let notes = Notes {
        events: Vec::new(rt.alloc()),
    };
    let Ok((lock, pass)) = TurnLock::new(rt.alloc(), notes, 17) else {
        panic!(rt; "no memory")
    };
    let Ok((pass, first)) = lock.split(pass) else {
        unreachable!()
    };
    let Ok((pass, second)) = lock.split(pass) else {
        unreachable!()
    };
    let Ok((pass, third)) = lock.split(pass) else {
        unreachable!()
    };
    let shared = &lock;
    let ((pass, first), (second, third)) = thread::join(
        &rt,
        || add_in_two(&rt, shared, pass, first, 0, 8),
        || add_in_two(&rt, shared, second, third, 2, 1),
    );
    let pass = lock.join(pass, third);
    let pass = lock.join(pass, first);
    let pass = lock.join(pass, second);
    assert_eq!(rt; pass.gives(), 8);
    let notes = lock.close(pass);
    assert_eq!(rt; notes.events.len(), 459);
    for (maker, count) in [(0, 8), (1, 400), (2, 1), (3, 50)] {
        assert!(rt; notes.are_in_order(maker, count), "the events of {maker}");
    }
    Ok(())
}
