//! Whether the clients' Unix socket can be opened, and an old one at its path replaced.

use mio::net::{UnixListener, UnixStream};
use std::fs::{self, Permissions};
use std::io::{self, ErrorKind};
use std::net::Net;
use std::os::unix::fs::{FileTypeExt, PermissionsExt};
use std::rt::Files;

// The permissions of the socket: its owner and its group may connect.
const MODE: u32 = 0o660;

/// An open door. Connections are accepted by nothing else.
#[derive(Drop)]
pub struct Door {
    listener: UnixListener,
}

impl Door {
    /// The door at which this listens.
    pub fn new(listener: UnixListener) -> Door {
        Door { listener }
    }

    /// Accepts a connection that waits, if one does.
    pub fn accept(&mut self) -> Option<UnixStream> {
        match self.listener.accept() {
            Ok((stream, _)) => Some(stream),
            Err(_) => None,
        }
    }
}

// Whether a socket stands at the path.
fn is_socket(rt: &impl Files, path: &str) -> bool {
    match fs::symlink_metadata(rt, path) {
        Ok(found) => found.file_type().is_socket(),
        Err(_) => false,
    }
}

// Whether a socket stands at the path at which nobody listens.
fn is_left_over(rt: &(impl Files + Net), path: &str) -> bool {
    if !is_socket(rt, path) {
        return false;
    }
    match UnixStream::connect(rt, path) {
        Ok(_) => false,
        Err(error) => error.kind() == ErrorKind::ConnectionRefused,
    }
}

/// Listens at a path. An old socket there at which nobody listens is replaced; anything else is left, and the
/// call fails. Owner and group may connect. The error is the system's.
pub fn open_door(rt: &(impl Files + Net), path: &str) -> io::Result<UnixListener> {
    if is_left_over(rt, path) {
        fs::remove_file(rt, path)?;
    }
    let door = UnixListener::bind(rt, path)?;
    fs::set_permissions(rt, path, Permissions::from_mode(MODE))?;
    Ok(door)
}
