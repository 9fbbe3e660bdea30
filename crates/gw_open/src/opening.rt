//! How what is asked for is opened, and the state of the gateway saved at the end.

use crate::files::read_file;
use crate::state::keep_gateway;
use gw_command::{PortOptions, Senders, SessionOptions, TrunkOptions};
use gw_config::Config;
use gw_repeat::{Repeating, packet_words};
use gw_report::{ProgramFault, print_result, reason_at};
use gw_session::{RunFault, Totals};
use gw_switch::Gateway;
use gw_tell::Teller;
use gw_udp::{Descriptors, OpenFault, SourceFilter, SystemSocket, UdpPorts};
use std::fs::File;
use std::net::Net;
use std::rt::Files;

// The most octets of the file of a configuration that are read: one more than the longest has.
const MOST_OCTETS: u64 = 65_537;

// The sockets of the circuits.
type Ports = UdpPorts<SystemSocket>;

/// The ports that receive and send the datagrams of the circuits.
pub type SessionPorts = Repeating<Ports>;

/// The configuration of a session, in its file.
///
/// # Errors
///
/// [`ProgramFault::File`] if the system refuses the file or a read of it, [`ProgramFault::Config`] if its
/// octets are no configuration, [`ProgramFault::OutOfMemory`].
pub fn read_config(
    rt: &(impl Files<File = File> + AllocGlobal),
    options: &SessionOptions<'_>,
) -> Result<Config, ProgramFault> {
    match read_file(rt, options.config, MOST_OCTETS) {
        Ok(octets) => gw_config::read(rt.alloc(), octets.as_slice()).map_err(ProgramFault::Config),
        Err(error) => Err(ProgramFault::of(&error, ProgramFault::File)),
    }
}

// Who may send to the circuits.
fn filter_of(senders: Senders) -> SourceFilter {
    match senders {
        Senders::Any => SourceFilter::Any,
        Senders::Host => SourceFilter::Host,
        Senders::Peer => SourceFilter::Peer,
        Senders::First => SourceFilter::First,
    }
}

// Opens the sockets of the circuits, or takes them from these descriptors.
fn open_sockets(
    rt: &(impl Net + AllocGlobal),
    senders: Senders,
    among: Descriptors,
    config: &Config,
) -> Result<Ports, ProgramFault> {
    let host = config.host.as_str();
    match UdpPorts::open(
        rt,
        rt.alloc(),
        host,
        &config.ports,
        filter_of(senders),
        among,
    ) {
        Ok(ports) => Ok(ports),
        Err(OpenFault::Socket(circuit)) => Err(ProgramFault::Socket(circuit)),
        Err(OpenFault::OutOfMemory) => Err(ProgramFault::OutOfMemory),
    }
}

// The ports of the circuits over these sockets, which send each datagram again after so many.
fn repeat_over(
    rt: &impl AllocGlobal,
    ports: Ports,
    repeat: u8,
    config: &Config,
) -> Result<SessionPorts, ProgramFault> {
    let words = packet_words(&config.gateway.circuits);
    match Repeating::open(rt.alloc(), ports, repeat, words) {
        Ok(ports) => Ok(ports),
        Err(_) => Err(ProgramFault::OutOfMemory),
    }
}

/// Opens the ports of the circuits of a session, each with its socket.
pub fn open_ports(
    rt: &(impl Net + AllocGlobal),
    options: &PortOptions,
    config: &Config,
) -> Result<SessionPorts, ProgramFault> {
    let ports = open_sockets(rt, options.senders, Descriptors::none(), config)?;
    repeat_over(rt, ports, options.repeat, config)
}

/// Opens the ports of the circuits of a trunk, each with its socket, which the program may have been given.
pub fn open_trunk_ports(
    rt: &(impl Net + AllocGlobal),
    options: &TrunkOptions<'_>,
    config: &Config,
) -> Result<SessionPorts, ProgramFault> {
    let among = match options.sockets {
        Some((first, last)) => Descriptors { first, last },
        None => Descriptors::none(),
    };
    let mut ports = open_sockets(rt, options.ports.senders, among, config)?;
    if options.log.is_some() {
        ports.limit();
    }
    repeat_over(rt, ports, options.ports.repeat, config)
}

/// Opens the socket of `--tell` at a path, if one is named.
pub fn open_teller(
    rt: &(impl Files + Net + AllocGlobal),
    path: Option<&str>,
    config: &Config,
    gateway: &Gateway,
) -> Result<Option<Teller>, ProgramFault> {
    let Some(path) = path else {
        return Ok(None);
    };
    let law = config.gateway.law;
    match Teller::open(rt, path, law, gateway) {
        Ok(teller) => Ok(Some(teller)),
        Err(error) => Err(ProgramFault::Tell(reason_at(rt.alloc(), path, &error)?)),
    }
}

/// Saves the state of a gateway after a session with this result, if that is asked for. If it fails, the
/// fault of the session is reported first.
///
/// # Errors
///
/// The fault of the session, or that its state was not saved.
pub fn end_session(
    rt: &(impl Files<File = File> + Eprint + AllocGlobal),
    options: &SessionOptions<'_>,
    config: &Config,
    gateway: &Gateway,
    ended: Result<Totals, RunFault>,
) -> Result<Totals, ProgramFault> {
    let told = ended.map_err(ProgramFault::Session);
    match keep_gateway(rt, &config.gateway, gateway, options.save) {
        Ok(()) => told,
        Err(fault) => {
            print_result(rt, false, &told);
            Err(fault)
        }
    }
}
