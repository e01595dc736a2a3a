//! The same turns under a plain mutex.
use crate::notes::Notes;
use std::alloc::Global;
use std::sync::{Mutex, Wait};
use std::thread;
use std::thread::Threads;

fn add_all<R: Wait>(rt: &R, notes: &Mutex<Notes>, maker: u32, turns: u32) {
    for event in 0..turns {
        notes.lock(rt).add(maker, event);
    }
}

fn add_in_two<R: Wait + Threads + Sync>(rt: &R, notes: &Mutex<Notes>, maker: u32, turns: u32) {
    thread::join(
        rt,
        || add_all(rt, notes, maker, turns),
        || add_all(rt, notes, maker.saturating_add(1), turns),
    );
}

/// How many events there are after two or four threads took their turns.
pub fn count<R: Wait + Threads + Sync>(
    rt: &R,
    alloc: Global,
    four: bool,
    turns: u32,
) -> Option<usize> {
    let notes = Mutex::new(Notes::new(alloc));
    let shared = &notes;
    if four {
        thread::join(
            rt,
            || add_in_two(rt, shared, 0, turns),
            || add_in_two(rt, shared, 2, turns),
        );
    } else {
        add_in_two(rt, shared, 0, turns);
    }
    Some(notes.into_inner().count())
}
