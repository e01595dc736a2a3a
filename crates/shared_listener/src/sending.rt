//! That a lock round a shared listener may be shared by threads, and that its passes may cross from one to another.
use crate::listener::SharedListener;
use stock_io::listener::Listener;
use turn_lock::lock::TurnLock;
use turn_lock::pass::Pass;

fn shared<T: Sync>() {}

fn sent<T: Send>() {}

fn lock_may_be_shared<L: Listener + Send>() {
    shared::<TurnLock<SharedListener<L>>>();
    sent::<TurnLock<SharedListener<L>>>();
    sent::<Pass<SharedListener<L>>>();
}
