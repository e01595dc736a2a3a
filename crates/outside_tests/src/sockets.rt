//! Sockets of this machine answer at 127.0.0.1, and nowhere else.

use crate::streams::{Read, next_read, writes};
use std::net::{Ipv4Addr, Net, SocketAddr, TcpListener, TcpStream};
use stock_io::failed::Failed;
use stock_io::link::Link;
use stock_io::listener::Listener;
use stock_io::net_link::NetLink;
use stock_io::net_listener::NetListener;

fn listens<L: Listener>(listener: &mut L) -> bool {
    listener.listen(0, None).is_ok()
}

// A listener at a port that the system chose, and the port; port 0 where there is none.
fn listening<R: Net<Listener = TcpListener, Stream = TcpStream>>(rt: R) -> (NetListener<R>, u16) {
    let mut listener = NetListener::new(rt);
    let port = if listens(&mut listener) {
        listener.port().unwrap_or(0)
    } else {
        0
    };
    (listener, port)
}

// What the client is told by the peer that it asked: how many bytes, and the first. Then it comes to the
// end, since the peer ended its link, which isn't closed yet.
fn answer_to<L: Listener, C: Link>(listener: &mut L, client: &mut C) -> Read {
    let is_asked = writes(client, b"ask");
    let mut peer = listener.accept()?;
    let is_told = writes(&mut peer, b"told");
    let asked = next_read(&mut peer);
    peer.end();
    let told = next_read(client);
    let more = next_read(client);
    listener.hang_up(peer);
    client.end();
    if is_asked && is_told && asked == Ok((3, b'a')) && more == Ok((0, 0)) {
        told
    } else {
        Err(Failed)
    }
}

// How many bytes the link took, how many faults it had, and whether it was ended.
fn counts(link: &NetLink) -> (u64, u64, bool) {
    (link.taken(), link.faults(), link.is_ended())
}

// Whether someone listens at the port at another address of this machine.
fn answers_elsewhere<R: Net<Stream = TcpStream>>(rt: &R, port: u16) -> bool {
    rt.connect(SocketAddr::from((Ipv4Addr::new(127, 0, 0, 2), port)))
        .is_ok()
}

#[test]
fn sockets_answer(rt: HostRuntime) {
    let (mut listener, port) = listening(rt);
    let Ok(mut client) = NetLink::connect(&rt, port) else {
        panic!(rt; "no one listens")
    };
    assert!(rt; answer_to(&mut listener, &mut client) == Ok((4, b't')));
    assert!(rt; counts(&client) == (4, 0, true));
    assert!(rt; listener.faults() == 0);
    assert!(rt; !answers_elsewhere(&rt, port));
}
