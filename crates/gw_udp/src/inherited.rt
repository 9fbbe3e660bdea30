//! The sockets that this process was given, at descriptors (`Descriptors`).

ghost use Rattle.std.specs.Prelude.{◌≤◌, ℕ};

use crate::socket::Socket;
use std::io;
use std::net::{Net, SocketAddr};

/// Descriptors of sockets that this process was given: from the first to the last, so none if that is less.
#[derive(Clone, Copy, Debug, PartialEq, Eq)]
pub struct Descriptors {
    /// The first one.
    pub first: u16,
    /// The last one.
    pub last: u16,
}

impl Descriptors {
    /// None.
    pub fn none() -> Descriptors
        ensures { (d : ℕ) → result.first ≤ d → ¬ (d ≤ result.last) }
    {
        Descriptors { first: 1, last: 0 }
    }
}

// The socket at the first of these descriptors that has one of this address.
fn inherited<S: Socket>(among: Descriptors, address: SocketAddr) -> Option<S> {
    for descriptor in among.first..=among.last {
        if let Some(socket) = S::inherit(descriptor, address) {
            return Some(socket);
        }
    }
    None
}

/// A socket at this address: that of the first of these descriptors with one, or, if none has it, a new one.
pub(crate) fn socket_at<S: Socket>(
    net: &impl Net,
    among: Descriptors,
    address: SocketAddr,
) -> io::Result<S> {
    match inherited(among, address) {
        Some(socket) => Ok(socket),
        None => S::bind(net, address),
    }
}
