//! The system's datagram socket (`SystemSocket`).

use crate::outcome::{received, sent, was_refused};
use crate::socket::Socket;
use gw_records::PortFault;
use libc::net;
use mio::unix::SourceFd;
use mio::{Interest, Poll, Token};
use os::{FromRawFd, duplicate};
use std::io;
use std::net::{Net, SocketAddr, UdpSocket};
use std::os::fd::AsRawFd;

/// The system's datagram socket.
#[derive(Drop)]
pub struct SystemSocket {
    socket: UdpSocket,
}

// Another descriptor of the socket at this one, which stays open. None if nothing is there.
fn copy_of(descriptor: u16) -> Option<UdpSocket> {
    let copy = duplicate(i32::from(descriptor));
    if copy < 0 {
        return None;
    }
    Some(unsafe { UdpSocket::from_raw_fd(copy) })
}

// Parts a socket from the sender that it was joined to (connect(2), AF_UNSPEC). False if that is refused.
fn part(socket: &mut UdpSocket) -> bool {
    let unspecified = [0u8; net::_SS_SIZE];
    unsafe { net::connect(socket.as_raw_fd(), &unspecified, 16) == 0 }
}

// A socket with its own address at this one, parted and non-blocking. (One with another port is that of
// another circuit, and stays joined.)
fn parted_at(mut socket: UdpSocket, address: SocketAddr) -> io::Result<Option<UdpSocket>> {
    if socket.local_addr()?.port() != address.port() || !part(&mut socket) {
        return Ok(None);
    }
    if socket.local_addr()? != address {
        return Ok(None);
    }
    socket.set_nonblocking(true)?;
    Ok(Some(socket))
}

impl Socket for SystemSocket {
    fn bind<N: Net>(net: &N, address: SocketAddr) -> io::Result<SystemSocket> {
        let socket = UdpSocket::bind(net, address)?;
        socket.set_nonblocking(true)?;
        Ok(SystemSocket { socket })
    }

    fn inherit(descriptor: u16, address: SocketAddr) -> Option<SystemSocket> {
        match parted_at(copy_of(descriptor)?, address) {
            Ok(Some(socket)) => Some(SystemSocket { socket }),
            Ok(None) | Err(_) => None,
        }
    }

    fn connect(&mut self, peer: SocketAddr) -> io::Result<()> {
        self.socket.connect(peer)
    }

    fn make_room(&self, octets: i32) {
        let mut value = [0u8; 16];
        value[..4].copy_from_slice(&octets.to_ne_bytes());
        let fd = self.socket.as_raw_fd();
        let _ = unsafe { net::setsockopt(fd, net::SOL_SOCKET, net::SO_RCVBUF, &value, 4) };
    }

    fn watch(&mut self, poll: &Poll, token: Token) -> bool {
        let source = &mut SourceFd(&self.socket.as_raw_fd());
        poll.registry()
            .register(source, token, Interest::READABLE)
            .is_ok()
    }

    fn receive(&mut self, room: &mut [u8]) -> Result<Option<(usize, SocketAddr)>, PortFault> {
        received(self.socket.recv_from(room))
    }

    fn receive_any(&mut self, room: &mut [u8]) -> Result<Option<usize>, PortFault> {
        received(self.socket.recv(room))
    }

    // (A refusal is for an earlier datagram, and then this one was not sent.)
    fn send(&mut self, datagram: &[u8], to: SocketAddr) -> Result<(), PortFault> {
        let first = self.socket.send_to(datagram, to);
        if was_refused(&first) {
            return sent(&self.socket.send_to(datagram, to), datagram.len());
        }
        sent(&first, datagram.len())
    }
}
