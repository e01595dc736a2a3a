//! What two peers send that wait for one another.
ghost use Rattle.std.specs.Prelude.{◌≤◌, length};

use crate::signals::{MOST_TURNS, Signals};
use std::alloc::Global;
use std::sync::{Arc, Wait};

const POSTS_ITEM: &[u8] =
    b"POST /desk HTTP/1.1\r\nHost: x\r\nContent-Length: 41\r\n\r\n{\"do\":\"item\",\"code\":\"L1\",\"method\":\"fifo\"}";

const ASKS_FOR_ITEM: &[u8] =
    b"POST /desk HTTP/1.1\r\nHost: x\r\nContent-Length: 39\r\n\r\n{\"do\":\"report\",\"of\":\"balance\",\"need\":1}";

const POSTS_STORE: &[u8] =
    b"POST /desk HTTP/1.1\r\nHost: x\r\nContent-Length: 40\r\n\r\n{\"do\":\"store\",\"code\":\"W1\",\"account\":100}";

const IS_DONE: &[u8] = b"HTTP/1.1 200 OK\r\n";

const IS_PENDING: &[u8] = b"HTTP/1.1 202 ";

/// How far a peer has come.
#[derive(Clone, Copy, Debug, PartialEq, Eq)]
pub enum Step {
    /// It is about to send this first one of its requests, or has sent it.
    PostsItem,
    /// It asks again and again whether its item is covered.
    AsksForItem,
    /// It waits for the other one before it sends anything.
    WaitsForItem,
    /// It posts a warehouse.
    PostsStore,
    /// It has sent all, and ended.
    Ended,
    /// It waited in vain, or was answered in another way, and ended.
    GaveUp,
}

/// A peer's steps, with what it waits with and what it shares with the other one.
#[derive(Drop)]
pub struct Script<R> {
    rt: R,
    signals: Arc<Signals, Global>,
    step: Step,
    asked: u32,
    text: &'static [u8],
    is_done: bool,
    is_pending: bool,
}

impl<R: Wait> Script<R> {
    /// Posts an item, asks until it is covered, lets the other one know, and waits until that one posted.
    pub fn first(rt: R, signals: Arc<Signals, Global>) -> Script<R> {
        Script::begun_at(rt, signals, Step::PostsItem, POSTS_ITEM)
    }

    /// Waits until the other one's item is covered, posts a warehouse, and lets the other one know.
    pub fn second(rt: R, signals: Arc<Signals, Global>) -> Script<R> {
        Script::begun_at(rt, signals, Step::WaitsForItem, b"")
    }

    fn begun_at(
        rt: R,
        signals: Arc<Signals, Global>,
        step: Step,
        text: &'static [u8],
    ) -> Script<R> {
        Script {
            rt,
            signals,
            step,
            asked: 0,
            text,
            is_done: false,
            is_pending: false,
        }
    }

    /// How far it has come.
    pub fn step(&self) -> Step {
        self.step
    }

    /// Sends some bytes of the next text into the buffer, and says how many; none where it has ended. It may wait for the other
    /// peer.
    pub fn send(&mut self, buf: &mut [u8]) -> usize
        ensures { result ≤ length buf.new }
    {
        if self.text.is_empty() {
            self.go_on();
        }
        let n = self.text.len().min(buf.len());
        buf[..n].copy_from_slice(&self.text[..n]);
        self.text = &self.text[n..];
        n
    }

    /// Hears an answer, which is written whole.
    pub fn hear(&mut self, answer: &[u8]) {
        self.is_done = answer.starts_with(IS_DONE);
        self.is_pending = answer.starts_with(IS_PENDING);
    }

    // The step that follows the last answer.
    fn go_on(&mut self) {
        match self.step {
            Step::PostsItem if self.is_done => self.ask(),
            Step::AsksForItem if self.is_done => {
                self.signals.covered.set();
                let is_accepted = self.signals.accepted.is_set_in_time(&self.rt);
                self.end(is_accepted);
            }
            Step::AsksForItem if self.is_pending && self.asked < MOST_TURNS => self.ask(),
            Step::WaitsForItem => {
                let is_covered = self.signals.covered.is_set_in_time(&self.rt);
                self.post_store(is_covered);
            }
            Step::PostsStore if self.is_done => {
                self.signals.accepted.set();
                self.end(true);
            }
            Step::Ended => {}
            _ => self.end(false),
        }
    }

    fn ask(&mut self) {
        self.step = Step::AsksForItem;
        self.asked = self.asked.saturating_add(1);
        self.text = ASKS_FOR_ITEM;
    }

    fn post_store(&mut self, may_post: bool) {
        if may_post {
            self.step = Step::PostsStore;
            self.text = POSTS_STORE;
        } else {
            self.step = Step::GaveUp;
        }
    }

    fn end(&mut self, is_done: bool) {
        self.step = if is_done { Step::Ended } else { Step::GaveUp };
    }
}
