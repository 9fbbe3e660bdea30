//! Which errors of the system's socket calls are faults of a port, and which mean none waits.

ghost use Rattle.std.specs.Prelude.{◌↔◌, IsTrue};
ghost use Rattle.std.specs.IoError.{error_kind};
ghost use Rattle.gw_udp.specs.Outcome.{IsByKind, IsReceived, IsSent, WasRefused};

use gw_records::PortFault;
use std::io;
use std::io::{Error, ErrorKind};

// The system's error number for "none waiting", EAGAIN.
const NONE_WAITS: i32 = 11;

// The result of a failed receive by the kind of its error: none waiting, or a fault.
//
// An absent peer is no fault of the port.
#[inline(never)]
fn by_kind<T>(error: &Error) -> Result<Option<T>, PortFault>
    ensures { IsByKind (error_kind error.now) result }
{
    match error.kind() {
        ErrorKind::WouldBlock | ErrorKind::ConnectionRefused => Ok(None),
        _ => Err(PortFault),
    }
}

/// The result of a receive of the system's. (EAGAIN is the usual answer, so its number is compared first.)
#[inline]
pub fn received<T>(answer: io::Result<T>) -> Result<Option<T>, PortFault>
    ensures { IsReceived answer result }
{
    match answer {
        Ok(got) => Ok(Some(got)),
        Err(error) => {
            if error.raw_os_error() == Some(NONE_WAITS) {
                return Ok(None);
            }
            by_kind(&error)
        }
    }
}

/// Whether a send was refused for an earlier datagram, so that this one was not sent.
pub fn was_refused(answer: &io::Result<usize>) -> bool
    ensures { IsTrue result ↔ WasRefused answer.now }
{
    match answer {
        Ok(_) => false,
        Err(error) => error.kind() == ErrorKind::ConnectionRefused,
    }
}

/// The result of a send: a fault unless the system took all octets.
pub fn sent(answer: &io::Result<usize>, len: usize) -> Result<(), PortFault>
    ensures { IsSent answer.now len result }
{
    match answer {
        Ok(taken) if *taken == len => Ok(()),
        Ok(_) | Err(_) => Err(PortFault),
    }
}
