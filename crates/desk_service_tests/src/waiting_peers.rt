//! Two peers, each of which waits for what the service does for the other one.

use crate::script::{Script, Step};
use crate::served::served;
use crate::signals::Signals;
use crate::talker::Talker;
use crate::talkers::Talkers;
use std::alloc::Global;
use std::sync::{Arc, Wait};
use std::test::Fail;
use stock_nums::memory::NoMemory;
use stock_nums::numbers::RecordNo;

// The two scripts, the first one last.
fn two_scripts<R: Wait>(rt: &R, alloc: Global) -> Result<Vec<Script<&R>>, NoMemory> {
    let signals = Arc::new(alloc, Signals::new())?;
    let same = Arc::try_clone(&signals)?;
    let mut scripts = Vec::new(alloc);
    scripts.push(Script::second(rt, same))?;
    scripts.push(Script::first(rt, signals))?;
    Ok(scripts)
}

// Whether the peer has sent all, and its connection was ended.
fn has_ended<R: Wait>(peer: &Talker<R>) -> bool {
    peer.script().step() == Step::Ended && peer.is_ended()
}

// Whether that is so of two peers, which were hung up.
fn have_ended<R: Wait>(listener: &Talkers<R>) -> bool {
    match listener.hung_up() {
        [first, second] => has_ended(first) && has_ended(second),
        _ => false,
    }
}

#[test]
fn two_peers_that_wait_for_one_another_are_served(rt: HostRuntime) -> Result<(), Fail> {
    let alloc = rt.alloc();
    let listener = Talkers::new(two_scripts(&rt, alloc)?, Vec::new(alloc));
    let Some(ending) = served(&rt, alloc, listener, 2, 2) else {
        panic!(rt; "no memory")
    };
    assert!(rt; ending.accepted == 2 && ending.records == RecordNo(2));
    assert!(rt; have_ended(&ending.listener));
    Ok(())
}
