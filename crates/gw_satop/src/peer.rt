//! The far end of an emulated circuit: its UDP address, and the socket that hears it alone (`UdpPeer`).

ghost use Rattle.std.specs.Prelude.{◌≡◌, ◌≤◌, ◌++◌, ◌∷◌, [], length, take, IfSome, IfNone};
ghost use Rattle.gw_satop.specs.FarEnd.{HasFoundNone, IsBySocket};

use crate::log::History;
use gw_records::AtStart;
use gw_udp::Socket;
use std::io;
use std::io::{Error, ErrorKind};
use std::net::{Net, SocketAddr, ToSocketAddrs};

// Octets of datagrams that may wait: those of a second and a half, if the system allows them.
const ROOM: i32 = 1_048_576;

/// The far end at a UDP address, by a socket that takes datagrams from there alone. What came and was sent is
/// what the calls of the socket gave and took. Each that was sent has a flag: whether the system took it.
#[derive(Drop)]
pub struct UdpPeer<S: Socket> {
    socket: S,
    address: SocketAddr,
    opened: AtStart<S>,
    received: History,
    sent: History,
    ghost by: { ∥ IsBySocket (record { receives = S.receives; sends = S.sends })
        address opened.value socket received.datagrams sent ∥₁ },
}

impl<S: Socket> UdpPeer<S> {
    /// The far end at this address, by a socket that takes datagrams from there alone.
    pub fn new(socket: S, address: SocketAddr) -> UdpPeer<S>
        ensures received { result.received.datagrams ≡ [] }
        ensures sent { result.sent.datagrams ≡ [] }
    {
        let opened = AtStart::of(&socket);
        UdpPeer {
            socket,
            address,
            opened,
            received: History::new(),
            sent: History::new(),
        }
    }

    /// Receives the first datagram that waits to the front of `room`, and returns its length; None if none
    /// waits. It never waits for one.
    pub fn receive(&mut self, room: &mut [u8]) -> Option<usize>
        ensures bound { IfSome result (λ n. n ≤ length room.new) }
        ensures received { IfSome result (λ n.
            self.new.received.datagrams ≡ self.old.received.datagrams ++ take n room.new ∷ []) }
        ensures kept { IfNone result (self.new.received.datagrams ≡ self.old.received.datagrams) }
        ensures none { IfNone result (HasFoundNone S.receives self.new.socket) }
        ensures sent { self.new.sent ≡ self.old.sent }
    {
        match self.socket.receive_any(room) {
            Ok(Some(n)) => {
                self.received.datagram(room, n);
                Some(n)
            }
            Ok(None) => None,
            Err(_) => None,
        }
    }

    /// Gives the system a datagram for the far end, and returns whether it took it. One that it did not take
    /// the far end misses, like one that the network lost.
    pub fn send(&mut self, datagram: &[u8]) -> bool
        ensures sent { self.new.sent.datagrams ≡ self.old.sent.datagrams ++ datagram.now ∷ [] }
        ensures taken { self.new.sent.flags ≡ self.old.sent.flags ++ result ∷ [] }
        ensures received { self.new.received ≡ self.old.received }
    {
        let taken = self.socket.send(datagram, self.address).is_ok();
        self.sent.datagram(datagram, datagram.len());
        self.sent.flag(taken);
        taken
    }
}

/// The first address of a host and a port. The error is the system's, or says that the text is none, or that
/// the host has no address.
pub fn address_of(net: &impl Net, text: &str) -> io::Result<SocketAddr> {
    match text.to_socket_addrs(net)?.next() {
        Some(address) => Ok(address),
        None => Err(Error::from(ErrorKind::NotFound)),
    }
}

/// Opens a socket at an address, with room for the packets of a far end. The error is the system's.
pub fn open_socket<S: Socket>(net: &impl Net, here: SocketAddr) -> io::Result<S> {
    let mut socket = S::bind(net, here)?;
    socket.make_room(ROOM);
    Ok(socket)
}
