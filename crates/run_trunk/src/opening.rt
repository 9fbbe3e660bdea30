//! How the trunk that the command line asks for is opened (`open_trunk`).

ghost use Rattle.std.specs.Prelude.{◌≡◌, [], IfOk};
ghost use Rattle.run_trunk.specs.Opening.{IsFreshEnd, IsFreshTrunk};

use gw_command::{ControlOptions, TrunkOptions};
use gw_report::{ProgramFault, reason_at};
use gw_trunk::{FromDevice, ToDevice, WithClients, open_clients};
use std::alloc::Global;
use std::fs;
use std::net::Net;
use std::os::unix::fs::FileTypeExt;
use std::rt::{Files, Stderr, Stdin, Stdout};
use trunk_filters::{TrunkFilters, filters_as_asked};

// The descriptors of standard input and output.
const STDIN: i32 = 0;

const STDOUT: i32 = 1;

/// Standard input, with the clients of a Unix socket or without.
#[derive(Drop)]
pub(crate) enum Incoming {
    Alone(FromDevice<Stdin>),
    Clients(WithClients<Stdin>),
}

/// A trunk that is open, of which nothing was read and to which nothing was written.
#[derive(Drop)]
pub struct OpenTrunk {
    pub(crate) incoming: Incoming,
    pub(crate) outgoing: ToDevice<Stdout>,
    pub(crate) filters: TrunkFilters,
    pub(crate) errors: Stderr,
    pub(crate) alloc: Global,
}

// What a fault of standard input or output is about.
const TRUNK: &str = "the trunk";

// Opens standard input without clients.
fn open_alone(rt: &(impl Net + AllocGlobal), input: Stdin) -> Result<Incoming, ProgramFault>
    ensures { IfOk result IsFreshEnd }
{
    match FromDevice::open(rt, input, STDIN) {
        Ok(incoming) => Ok(Incoming::Alone(incoming)),
        Err(error) => Err(ProgramFault::Trunk(reason_at(rt.alloc(), TRUNK, &error)?)),
    }
}

// Whether a read of standard input may give a block of what has come: it is a device, or nobody knows.
fn gives_blocks(rt: &impl Files) -> bool {
    match fs::metadata(rt, "/dev/stdin") {
        Ok(found) => found.file_type().is_char_device(),
        Err(_) => true,
    }
}

// Opens standard input and the socket of clients, and has the descriptor ask for the end of the trunk, if one
// is named.
fn open_with_clients(
    rt: &(impl Files + Net + AllocGlobal),
    input: Stdin,
    control: &ControlOptions<'_>,
) -> Result<Incoming, ProgramFault>
    ensures { IfOk result IsFreshEnd }
{
    let mut incoming = match open_clients(rt, input, STDIN, gives_blocks(rt), control.path) {
        Ok(incoming) => incoming,
        Err(error) => {
            let reason = reason_at(rt.alloc(), control.path, &error)?;
            return Err(ProgramFault::Control(reason));
        }
    };
    if let Some(descriptor) = control.end {
        if let Err(error) = incoming.end_by(i32::from(descriptor)) {
            let end = format!(in rt.alloc(); "--end {descriptor}")?;
            let reason = reason_at(rt.alloc(), end.as_str(), &error)?;
            return Err(ProgramFault::Trunk(reason));
        }
    }
    Ok(Incoming::Clients(incoming))
}

// Opens standard input, and the socket of clients if one is named.
fn open_incoming(
    rt: &(impl Files + Net + AllocGlobal),
    control: Option<ControlOptions<'_>>,
    input: Stdin,
) -> Result<Incoming, ProgramFault>
    ensures { IfOk result IsFreshEnd }
{
    match control {
        Some(control) => open_with_clients(rt, input, &control),
        None => open_alone(rt, input),
    }
}

// Opens standard output.
fn open_outgoing(
    rt: &(impl Net + AllocGlobal),
    output: Stdout,
) -> Result<ToDevice<Stdout>, ProgramFault>
    ensures { IfOk result (λ d. d.log.octets ≡ []) }
{
    match ToDevice::open(rt, output, STDOUT) {
        Ok(outgoing) => Ok(outgoing),
        Err(error) => Err(ProgramFault::Trunk(reason_at(rt.alloc(), TRUNK, &error)?)),
    }
}

/// Opens the trunk at standard input and output, with the clients and the filters that the options ask for.
/// What is printed while it is served goes to `errors`.
///
/// # Errors
///
/// [`ProgramFault::Control`] if the socket of clients can't be opened, [`ProgramFault::Trunk`] if a stream of
/// the trunk or the descriptor of its end can't be waited for, [`ProgramFault::OutOfMemory`].
pub fn open_trunk(
    rt: &(impl Files + Net + AllocGlobal),
    options: &TrunkOptions<'_>,
    input: Stdin,
    output: Stdout,
    errors: Stderr,
) -> Result<OpenTrunk, ProgramFault>
    ensures { IfOk result IsFreshTrunk }
{
    let incoming = open_incoming(rt, options.control, input)?;
    let outgoing = open_outgoing(rt, output)?;
    let filters = filters_as_asked(rt.alloc(), options.filters)?;
    Ok(OpenTrunk {
        incoming,
        outgoing,
        filters,
        errors,
        alloc: rt.alloc(),
    })
}
