//! Whether a sender's datagrams are accepted: any, the peer's host, the peer, the first (`SourceFilter`).

ghost use Rattle.std.specs.Prelude.{◌↔◌, IsTrue};
ghost use Rattle.gw_udp.specs.SourceFilter.{IsAccepted, IsSameSender};

use std::net::SocketAddr;

/// The senders whose datagrams a circuit accepts.
#[derive(Clone, Copy, Debug, PartialEq, Eq)]
pub enum SourceFilter {
    /// Any sender.
    Any,
    /// The address of its peer, at any port.
    Host,
    /// The address and the port of its peer.
    Peer,
    /// The address and the port of the first datagram that its call accepted, until its path closes.
    First,
}

impl SourceFilter {
    /// Whether a datagram from an address is accepted, given the peer's, and the first sender of the call.
    pub fn accepts(self, from: SocketAddr, peer: SocketAddr, first: Option<SocketAddr>) -> bool
        ensures { IsTrue result ↔ IsAccepted self peer first from }
    {
        match self {
            SourceFilter::Any => true,
            SourceFilter::Host => from.ip() == peer.ip(),
            SourceFilter::Peer => is_same(from, peer),
            SourceFilter::First => match first {
                Some(known) => is_same(from, known),
                None => true,
            },
        }
    }
}

// Whether two senders have one address and one port.
fn is_same(from: SocketAddr, other: SocketAddr) -> bool
    ensures { IsTrue result ↔ IsSameSender from other }
{
    from.ip() == other.ip() && from.port() == other.port()
}
