//! The trait of a non-blocking datagram socket (`Socket`).

ghost use Rattle.std.specs.Prelude.{◌≤◌, length, IfOk, IfSome, ⊤};
ghost use Rattle.gw_udp.specs.Socket.{Received, ReceivesAny, Sent};

use gw_records::PortFault;
use mio::{Poll, Token};
use std::io;
use std::net::{Net, SocketAddr};

/// A datagram socket.
///
/// The relations are the type's own: a caller that does not know the type has them of a call alone.
pub trait Socket: Drop {
    /// Relates a socket before and after a receive, the answer, and the room afterwards.
    ghost receives: { Received Self } = { λ _ _ _ _. ⊤ };

    /// Relates a socket before and after a send, the destination, the datagram, and the answer.
    ghost sends: { Sent Self } = { λ _ _ _ _ _. ⊤ };

    /// Opens a non-blocking socket at an address.
    ///
    /// The error is the system's.
    fn bind<N: Net>(net: &N, address: SocketAddr) -> io::Result<Self>
    where
        Self: Sized;

    /// Takes the socket at a descriptor that this process was given, if this is its own address.
    ///
    /// Non-blocking, and parted from the sender that it was joined to. What waits there is received. None if
    /// there is no such socket.
    fn inherit(descriptor: u16, address: SocketAddr) -> Option<Self>
    where
        Self: Sized;

    /// Restricts the system's socket to one sender.
    ///
    /// The error is the system's; then all senders are accepted.
    fn connect(&mut self, peer: SocketAddr) -> io::Result<()>;

    /// Asks the system to keep this many octets of datagrams that wait. It may keep fewer.
    fn make_room(&self, octets: i32);

    /// Has the system say to this poll what comes to the socket, by this token. False if it does not.
    fn watch(&mut self, poll: &Poll, token: Token) -> bool;

    /// Receives the first datagram that waits into the front of `room`, and returns its length, in octets,
    /// and its sender. None if none waits.
    fn receive(&mut self, room: &mut [u8]) -> Result<Option<(usize, SocketAddr)>, PortFault>
        ensures bound { IfOk result (λ got. IfSome got (λ g. g.0 ≤ length room.new)) }
        ensures receives { receives self.old self.new result room.new };

    /// Receives the first datagram that waits, as [`receive`](Socket::receive) does, and returns its length
    /// alone, in octets.
    fn receive_any(&mut self, room: &mut [u8]) -> Result<Option<usize>, PortFault>
        ensures bound { IfOk result (λ got. IfSome got (λ n. n ≤ length room.new)) }
        ensures receives { ReceivesAny receives self.old self.new result room.new };

    /// Sends a datagram to an address.
    ///
    /// A fault unless the system took all of it.
    fn send(&mut self, datagram: &[u8], to: SocketAddr) -> Result<(), PortFault>
        ensures { sends self.old self.new to datagram.now result };
}
