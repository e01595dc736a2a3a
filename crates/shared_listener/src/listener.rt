//! A listener that desks share, each of which takes the next peer once its own has ended.
ghost use Rattle.std.specs.Prelude.{◌≡◌, ◌+◌, ◌<◌, ◌≤◌, ◌↔◌, false, length};
ghost use Rattle.turn_lock.specs.Histories.{made_by};
ghost use Rattle.stock_io.specs.Heard.{heard};
ghost use Rattle.stock_io.specs.Listeners.{IsFresh};
ghost use Rattle.shared_listener.specs.Steps.{comes, hangs, IsOpened, NotesCame, NotesHungUp, NotesEnded};
ghost use Rattle.shared_listener.specs.Sharing.{IsShared};
ghost use Rattle.shared_listener.specs.Turns.{IfPeer, OnOver, IsOver, IsTooEarly};

use crate::log::{Log, note};
use crate::step::{Opening, Step};
use std::marker::Model;
use std::snapshot::Snapshot;
use stock_io::listener::Listener;
use stock_nums::numbers::DeskNo;

/// A listener for so many peers. The first ones come to the desks in the order of their numbers, one to each.
#[derive(Drop)]
pub struct SharedListener<L: Listener> {
    listener: L,
    desks: u32,
    wanted: u32,
    came: u32,
    failed: bool,
    log: Snapshot<Log<(u32, Step<L, L::Peer>)>>,
}

impl<L: Listener> Model for SharedListener<L> {
    ghost use Rattle.std.specs.Prelude.{◌≡◌, length};
    ghost use Rattle.stock_io.specs.Heard.{heard};
    ghost use Rattle.stock_io.specs.Listeners.{IsFresh};
    ghost use Rattle.shared_listener.specs.Logs.{notes};
    ghost use Rattle.shared_listener.specs.Steps.{comes};
    ghost use Rattle.shared_listener.specs.Sharing.{IsShared};
    ghost use Rattle.shared_listener.specs.Turns.{SharedView};

    ghost Value = { SharedView L L.Peer };

    ghost view = { λ s. record { desks = s.desks; wanted = s.wanted; failed = s.failed; log = notes s.log.value } };

    ghost invariant = { λ s. (s.came ≡ length (comes (notes s.log.value)))
        × IsShared (heard L.waiting L.hung_up L.accepts L.hang_ups L.faults) L.listens_to
        (IsFresh L.Peer.taken L.Peer.written L.Peer.Source.faults L.Peer.ended)
        s.desks s.wanted s.failed (notes s.log.value) s.listener };
}

/// What a desk is told that wants a peer.
#[derive(Drop)]
pub enum Next<P> {
    /// This peer came.
    Peer(P),
    /// A desk with a lower number waits for its first peer.
    NotYet,
    /// No further peer comes.
    Over,
}

impl<L: Listener> SharedListener<L> {
    /// Shares the listener among so many desks, until so many peers came.
    pub fn new(listener: L, desks: u32, wanted: u32) -> SharedListener<L>
        ensures opened { IsOpened listener desks wanted result.log }
        ensures desks { result.desks ≡ desks }
        ensures wanted { result.wanted ≡ wanted }
        ensures not_failed { result.failed ≡ false }
    {
        let opening = Opening {
            listener: Snapshot::of(&listener),
            desks,
            wanted,
        };
        let mut log = Log::none();
        note(&mut log, (0, Step::Opened(opening)));
        SharedListener {
            listener,
            desks,
            wanted,
            came: 0,
            failed: false,
            log,
        }
    }

    /// How many peers came.
    pub fn came(&self) -> u32
        ensures { result ≡ length (comes self.now.log) }
    {
        self.came
    }

    /// Hands a peer of this desk back to the listener. It can't be refused.
    pub fn hang_up(&mut self, number: DeskNo, peer: L::Peer)
        requires { length (hangs (made_by number.0 self.old.log)) < length (comes (made_by number.0 self.old.log)) }
        ensures noted { NotesHungUp number.0 peer self.old.log self.new.log }
        ensures rest { self.new ≡ record self.old { log = self.new.log } }
    {
        let what = Snapshot::of(&peer);
        self.listener.hang_up(peer);
        note(&mut self.log, (number.0, Step::HungUp(what)));
    }

    /// The next peer for this desk. It may wait for one, as the listener does.
    pub fn next(&mut self, number: DeskNo) -> Next<L::Peer>
        ensures peer { IfPeer result (λ peer. NotesCame number.0 peer self.old.log self.new.log) }
        ensures fresh { IfPeer result (IsFresh L.Peer.taken L.Peer.written L.Peer.Source.faults L.Peer.ended) }
        ensures over { OnOver result (NotesEnded number.0 self.old.log self.new.log) }
        ensures why_over { OnOver result (IsOver self.new) }
        ensures over_already { IsOver self.old → result ≡ Next.Over }
        ensures not_yet { (result ≡ Next.NotYet) ↔ IsTooEarly number.0 self.old }
        ensures unchanged { result ≡ Next.NotYet → self.new ≡ self.old }
        ensures not_failed { IfPeer result (λ _. self.new.failed ≡ false) }
        ensures rest { self.new ≡ record self.old { failed = self.new.failed; log = self.new.log } }
    {
        if self.failed || self.came == self.wanted {
            note(&mut self.log, (number.0, Step::Ended));
            return Next::Over;
        }
        if self.came < self.desks && number.0 != self.came + 1 {
            return Next::NotYet;
        }
        match self.listener.accept() {
            Ok(peer) => {
                self.came += 1;
                note(&mut self.log, (number.0, Step::Came(Snapshot::of(&peer))));
                Next::Peer(peer)
            }
            Err(_) => {
                self.failed = true;
                note(&mut self.log, (number.0, Step::Ended));
                Next::Over
            }
        }
    }

    /// The listener, once no desk shares it any more.
    pub fn into_listener(self) -> L
        ensures { IsShared (heard L.waiting L.hung_up L.accepts L.hang_ups L.faults) L.listens_to
            (IsFresh L.Peer.taken L.Peer.written L.Peer.Source.faults L.Peer.ended)
            self.desks self.wanted self.failed self.log result }
    {
        let SharedListener {
            listener,
            desks: _,
            wanted: _,
            came: _,
            failed: _,
            log: _,
        } = self;
        listener
    }
}
