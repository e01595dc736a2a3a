//! A port of this machine, where connections over sockets come from.
ghost use Rattle.std.specs.Prelude.{◌≡◌, ◌+◌, ◌<◌, OnOk, OnErr, IfOk};
ghost use Rattle.stock_io.specs.Counts.{NeverFalls};
ghost use Rattle.stock_io.specs.Nets.{new_port, new_connection, after_listening, after_port_fault, after_handing_out, after_taking_back};

use crate::failed::Failed;
use crate::listener::Listener;
use crate::net_link::NetLink;
use std::io;
use std::marker::Model;
use std::net::{Ipv4Addr, Net, SocketAddr, TcpListener, TcpStream};
use std::time::Duration;

/// A port of this machine as a listener, at 127.0.0.1. It doesn't tell who waits or was hung up. The silence of a peer is limited by the
/// socket's own time-outs.
#[derive(Drop)]
pub struct NetListener<R> {
    rt: R,
    socket: Option<TcpListener>,
    /// The port that was asked for, and the seconds that a peer may be silent, once it listens.
    asked: Option<(u16, Option<u32>)>,
    accepts: u64,
    hang_ups: u64,
    faults: u64,
}

impl<R> Model for NetListener<R> {
    ghost use Rattle.std.specs.Prelude.{◌-◌, ◌≤◌};
    ghost use Rattle.stock_io.specs.Nets.{Port};

    ghost Value = { Port };

    ghost view = { λ s. record { hang_ups = s.hang_ups; outstanding = s.accepts - s.hang_ups; faults = s.faults; asked = s.asked } };

    ghost invariant = { λ s. s.hang_ups ≤ s.accepts };
}

impl<R> NetListener<R> {
    /// A listener that listens to nothing yet: no peer can be accepted before `listen`.
    pub fn new(rt: R) -> NetListener<R>
        ensures { result ≡ new_port }
    {
        NetListener {
            rt,
            socket: None,
            asked: None,
            accepts: 0,
            hang_ups: 0,
            faults: 0,
        }
    }

    /// The port that it listens to, if it does and the system tells. The system chooses one where port 0
    /// was asked for.
    pub fn port(&self) -> Option<u16> {
        let socket = self.socket.as_ref()?;
        Some(socket.local_addr().ok()?.port())
    }

    /// How many calls of `listen` and `accept` failed. The count stays at `u64::MAX`.
    pub fn faults(&self) -> u64
        ensures { result ≡ self.now.faults }
    {
        self.faults
    }

    fn fail(&mut self) -> Failed
        ensures { self.new ≡ after_port_fault self.old }
    {
        self.faults = self.faults.saturating_add(1);
        Failed
    }
}

impl<R: Net<Listener = TcpListener, Stream = TcpStream>> Listener for NetListener<R> {
    type Peer = NetLink;

    ghost use Rattle.std.specs.Prelude.{None};
    ghost use Rattle.std.proofs.Math.Nat.{le-add_right};

    ghost waiting = { λ _. None };

    ghost hung_up = { λ _. None };

    ghost accepts = { λ s. s.hang_ups + s.outstanding };

    ghost hang_ups = { λ s. s.hang_ups };

    ghost faults = { λ s. s.faults };

    ghost listens_to = { λ s. s.asked };

    ghost no_more_hung_up = { λ s. le-add_right s.hang_ups s.outstanding };

    fn listen(&mut self, port: u16, idle: Option<u32>) -> Result<(), Failed>
        ensures never_falls { NeverFalls self.old.faults self.new.faults }
        ensures after_ok { OnOk result (self.new ≡ after_listening port idle self.old) }
        ensures after_failed { OnErr result (self.new ≡ after_port_fault self.old) }
    {
        match self.rt.bind(SocketAddr::from((Ipv4Addr::LOCALHOST, port))) {
            Ok(socket) => {
                self.socket = Some(socket);
                self.asked = Some((port, idle));
                Ok(())
            }
            Err(_) => Err(self.fail()),
        }
    }

    // One peer of the socket, whose silence is limited as asked. Where it can't be, or the count of peers stands at its end, the call
    // fails.
    fn accept(&mut self) -> Result<NetLink, Failed>
        ensures never_falls { NeverFalls self.old.faults self.new.faults }
        ensures fresh { IfOk result (λ peer. peer ≡ new_connection) }
        ensures outstanding { OnOk result (0 < self.new.outstanding) }
        ensures after_ok { OnOk result (self.new ≡ after_handing_out self.old) }
        ensures after_failed { OnErr result (self.new ≡ after_port_fault self.old) }
    {
        let idle = match &self.asked {
            Some((_, idle)) => *idle,
            None => None,
        };
        if self.accepts < u64::MAX
            && let Some(socket) = &self.socket
            && let Ok((stream, _)) = socket.accept()
            && limit_silence(&stream, idle).is_ok()
        {
            self.accepts += 1;
            return Ok(NetLink::new(stream));
        }
        Err(self.fail())
    }

    // The socket is closed where the peer is dropped.
    fn hang_up(&mut self, peer: NetLink)
        requires { 0 < self.old.outstanding }
        ensures { self.new ≡ after_taking_back self.old }
    {
        drop(peer);
        self.hang_ups += 1;
    }
}

// Lets a read or a write of the socket fail once its peer was silent for so many seconds, if that is limited.
fn limit_silence(stream: &TcpStream, idle: Option<u32>) -> io::Result<()> {
    let most = idle.map(|seconds| Duration::from_secs(u64::from(seconds)));
    stream.set_read_timeout(most)?;
    stream.set_write_timeout(most)
}
