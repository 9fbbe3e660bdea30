//! What an emulated circuit opens: its socket, standard input and output, and the clock.

ghost use Rattle.std.specs.Prelude.{◌≡◌, [], IfOk};

use gw_command::SatopOptions;
use gw_report::{ProgramFault, reason_at};
use gw_satop::{SystemClock, WhenReady, address_of, open_input, open_socket};
use gw_trunk::{FromDevice, ToDevice};
use gw_udp::{Socket, SystemSocket};
use std::io;
use std::net::{Net, SocketAddr};
use std::rt::{Clock, Stdin, Stdout};

// The descriptors of standard input and output.
const STDIN: i32 = 0;

const STDOUT: i32 = 1;

// What a fault of standard input or output is about.
const TRUNK: &str = "the trunk";

// The address of a host and a port.
fn named_address(rt: &(impl Net + AllocGlobal), text: &str) -> Result<SocketAddr, ProgramFault> {
    match address_of(rt, text) {
        Ok(address) => Ok(address),
        Err(error) => Err(ProgramFault::FarEnd(match error.kind() {
            io::ErrorKind::InvalidInput => format!(in rt.alloc(); "{text} is no HOST:PORT")?,
            _ => reason_at(rt.alloc(), text, &error)?,
        })),
    }
}

// Opens a socket at this address.
fn open_near_end(
    rt: &(impl Net + AllocGlobal),
    local: &str,
    here: SocketAddr,
) -> Result<SystemSocket, ProgramFault> {
    match open_socket(rt, here) {
        Ok(socket) => Ok(socket),
        Err(error) => Err(ProgramFault::FarEnd(reason_at(rt.alloc(), local, &error)?)),
    }
}

/// Opens the socket that the options name, and returns it with the address of the far end.
pub(crate) fn open_far_end(
    rt: &(impl Net + AllocGlobal),
    options: &SatopOptions<'_>,
) -> Result<(SystemSocket, SocketAddr), ProgramFault> {
    let from = options.from.unwrap_or(options.peer);
    let here = named_address(rt, options.local)?;
    let peer = named_address(rt, options.peer)?;
    let sender = named_address(rt, from)?;
    let mut socket = open_near_end(rt, options.local, here)?;
    match socket.connect(sender) {
        Ok(()) => Ok((socket, peer)),
        Err(error) => Err(ProgramFault::FarEnd(reason_at(rt.alloc(), from, &error)?)),
    }
}

/// Opens standard input, read only when ready.
pub(crate) fn open_stdin(
    rt: &(impl Net + AllocGlobal),
    input: Stdin,
) -> Result<WhenReady<FromDevice<Stdin>>, ProgramFault>
    ensures came { IfOk result (λ r. r.incoming.reader.log.octets ≡ []) }
{
    match open_input(rt, input, STDIN) {
        Ok(incoming) => Ok(incoming),
        Err(error) => Err(ProgramFault::Trunk(reason_at(rt.alloc(), TRUNK, &error)?)),
    }
}

/// Opens standard output.
pub(crate) fn open_stdout(
    rt: &(impl Net + AllocGlobal),
    output: Stdout,
) -> Result<ToDevice<Stdout>, ProgramFault>
    ensures went { IfOk result (λ d. d.log.octets ≡ []) }
{
    match ToDevice::open(rt, output, STDOUT) {
        Ok(outgoing) => Ok(outgoing),
        Err(error) => Err(ProgramFault::Trunk(reason_at(rt.alloc(), TRUNK, &error)?)),
    }
}

/// Opens the clock, which waits for both ends.
pub(crate) fn open_clock<'r, R: Net + Clock + Eprint + AllocGlobal>(
    rt: &'r R,
    socket: &mut SystemSocket,
) -> Result<SystemClock<'r, R>, ProgramFault> {
    match SystemClock::open(rt, STDIN, socket) {
        Ok(clock) => Ok(clock),
        Err(error) => Err(ProgramFault::Trunk(reason_at(rt.alloc(), TRUNK, &error)?)),
    }
}
