//! That a lock may be shared by threads, and that its passes may cross from one to another.
use crate::lock::TurnLock;
use crate::logged::Logged;
use crate::pass::Pass;

fn shared<T: Sync>() {}

fn sent<T: Send>() {}

fn lock_may_be_shared<B: Logged + Send>() {
    shared::<TurnLock<B>>();
    sent::<TurnLock<B>>();
    sent::<Pass<B>>();
}
