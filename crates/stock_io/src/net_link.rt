//! Connections over sockets of this machine.
ghost use Rattle.std.specs.Prelude.{◌≡◌, ◌<◌, length, IfOk, OnOk, OnErr};
ghost use Rattle.std.specs.Io.{ReadsAtMost, WritesAtMost};
ghost use Rattle.stock_io.specs.Counts.{NeverFalls};
ghost use Rattle.stock_io.specs.Nets.{new_connection, after_receiving, after_link_fault, after_ending};

use crate::edge::{count_fault, taken_of, written_of};
use crate::failed::Failed;
use crate::link::Link;
use crate::sink::Sink;
use crate::source::Source;
use std::io::{Read, Write};
use std::marker::Model;
use std::net::{Ipv4Addr, Net, Shutdown, SocketAddr, TcpStream};

/// A socket as a link. It doesn't tell its content.
#[derive(Drop)]
pub struct NetLink {
    stream: TcpStream,
    taken: u64,
    faults: u64,
    ended: bool,
}

impl Model for NetLink {
    ghost use Rattle.stock_io.specs.Nets.{Connection};

    ghost Value = { Connection };

    ghost view = { λ s. record { taken = s.taken; faults = s.faults; ended = s.ended } };
}

impl NetLink {
    /// A link over a socket of which nothing was used yet.
    pub fn new(stream: TcpStream) -> NetLink
        ensures { result ≡ new_connection }
    {
        NetLink {
            stream,
            taken: 0,
            faults: 0,
            ended: false,
        }
    }

    /// A link to a port of this machine, at 127.0.0.1.
    ///
    /// # Errors
    ///
    /// `Failed` where no one listens there, or the system has no socket.
    pub fn connect<R: Net<Stream = TcpStream>>(rt: &R, port: u16) -> Result<NetLink, Failed>
        ensures { IfOk result (λ link. link ≡ new_connection) }
    {
        match rt.connect(SocketAddr::from((Ipv4Addr::LOCALHOST, port))) {
            Ok(stream) => Ok(NetLink::new(stream)),
            Err(_) => Err(Failed),
        }
    }

    /// How many bytes of the peer were taken so far. A read that failed took none.
    pub fn taken(&self) -> u64
        ensures { result ≡ self.now.taken }
    {
        self.taken
    }

    /// How many reads and writes failed, both together. The count stays at `u64::MAX`.
    pub fn faults(&self) -> u64
        ensures { result ≡ self.now.faults }
    {
        self.faults
    }

    /// Whether this side ended the link. That the peer ended it shows at a read, which gives no bytes.
    pub fn is_ended(&self) -> bool
        ensures { result ≡ self.now.ended }
    {
        self.ended
    }
}

impl Source for NetLink {
    ghost use Rattle.std.specs.Prelude.{None};

    ghost left = { λ _. None };

    ghost taken = { λ s. s.taken };

    ghost faults = { λ s. s.faults };

    ghost read_leaves = { λ old new. new.ended ≡ old.ended };

    // One read of the socket. Where the buffer could take the count of bytes past its end, the read
    // fails.
    fn read(&mut self, buf: &mut [u8]) -> Result<usize, Failed>
        requires { 0 < length buf.old }
        ensures bound { ReadsAtMost result buf.new }
        ensures never_falls { NeverFalls self.old.faults self.new.faults }
        ensures after_ok { IfOk result (λ n. self.new ≡ after_receiving self.old n) }
        ensures after_failed { OnErr result (self.new ≡ after_link_fault self.old) }
    {
        let room = u64::MAX - self.taken;
        if buf.len() as u64 > room {
            return Err(count_fault(&mut self.faults));
        }
        taken_of(self.stream.read(buf), &mut self.taken, &mut self.faults)
    }
}

impl Sink for NetLink {
    ghost use Rattle.std.specs.Prelude.{None};

    ghost written = { λ _. None };

    ghost faults = { λ s. s.faults };

    ghost write_leaves = { λ old new. (new.taken ≡ old.taken) × (new.ended ≡ old.ended) };

    // One write to the socket.
    fn write(&mut self, bytes: &[u8]) -> Result<usize, Failed>
        requires { 0 < length bytes.now }
        ensures some { IfOk result (λ n. 0 < n) }
        ensures bound { WritesAtMost result bytes.now }
        ensures never_falls { NeverFalls self.old.faults self.new.faults }
        ensures after_ok { OnOk result (self.new ≡ self.old) }
        ensures after_failed { OnErr result (self.new ≡ after_link_fault self.old) }
    {
        written_of(self.stream.write(bytes), &mut self.faults)
    }
}

impl Link for NetLink {
    ghost use Rattle.std.proofs.Common.{refl};

    ghost ended = { λ s. s.ended };

    // A socket that is closed by its peer already can't be shut down, and needs none.
    fn end(&mut self)
        ensures { self.new ≡ after_ending self.old }
    {
        let _ = self.stream.shutdown(Shutdown::Both);
        self.ended = true;
    }

    ghost one_count = { λ link. refl };

    ghost read_keeps = { λ old new leaves. (refl, leaves) };

    ghost write_keeps = { λ old new leaves. (refl, leaves.0, leaves.1) };
}
