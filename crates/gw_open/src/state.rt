//! How the gateway of a session begins, and how its state is written, synced and renamed for `--save`.

use crate::files::{create_file, is_regular, read_file};
use crate::log::log_contents;
use gw_command::SessionOptions;
use gw_config::Config;
use gw_log::{Found, ResumeFault, loaded_of, resumed_of};
use gw_report::{ProgramFault, reason_at};
use gw_state::state_file;
use gw_switch::{Gateway, GatewayConfig};
use std::alloc::{AllocError, Global};
use std::fs::{self, File};
use std::io::{self, Write};
use std::rt::Files;

// Prints which circuits begin as new, since their configuration changed.
fn print_renewed(rt: &impl Eprint, old: &GatewayConfig, config: &GatewayConfig) {
    for at in 0..config.circuits.len() {
        if old.circuits[at] != config.circuits[at] {
            let circuit = at + 1;
            let _ = eprintln!(rt; "circuit {circuit} begins as new");
        }
    }
}

// The fault if no gateway goes on from the log or the state at a path.
fn trouble_at(alloc: Global, path: &str, fault: ResumeFault) -> Result<ProgramFault, AllocError> {
    Ok(match fault {
        ResumeFault::OutOfMemory => ProgramFault::OutOfMemory,
        ResumeFault::TooLong => {
            ProgramFault::NoState(format!(in alloc; "{path}: longer than any state")?)
        }
        ResumeFault::Damaged => ProgramFault::BadLog(String::from_str(alloc, path)?),
        ResumeFault::State(fault) => ProgramFault::State(String::from_str(alloc, path)?, fault),
    })
}

/// The fault if no gateway goes on from the log or the state at a path.
pub(crate) fn resume_trouble(alloc: Global, path: &str, fault: ResumeFault) -> ProgramFault {
    match trouble_at(alloc, path, fault) {
        Ok(fault) => fault,
        Err(_) => ProgramFault::OutOfMemory,
    }
}

// The gateway of the log in a folder; None if nothing was ever kept there.
fn resumed_gateway(
    rt: &(impl Files<File = File> + Eprint + AllocGlobal),
    config: &GatewayConfig,
    folder: &str,
) -> Result<Option<Gateway>, ProgramFault> {
    let contents = log_contents(rt, folder)?;
    match resumed_of(rt.alloc(), config, &contents) {
        Ok(Some(Found { gateway, old })) => {
            print_renewed(rt, &old, config);
            Ok(Some(gateway))
        }
        Ok(None) => Ok(None),
        Err(fault) => Err(resume_trouble(rt.alloc(), folder, fault)),
    }
}

// Loads the gateway whose state is in a file if one is named; otherwise opens a new one.
fn first_gateway(
    rt: &(impl Files<File = File> + Eprint + AllocGlobal),
    config: &GatewayConfig,
    path: Option<&str>,
) -> Result<Gateway, ProgramFault> {
    let Some(path) = path else {
        return Gateway::open(rt.alloc(), config).map_err(|_| ProgramFault::OutOfMemory);
    };
    // (one more than any state has)
    let octets = match read_file(rt, path, 1_048_577) {
        Ok(octets) => octets,
        Err(error) => return Err(ProgramFault::NoState(reason_at(rt.alloc(), path, &error)?)),
    };
    match loaded_of(rt.alloc(), config, octets.as_slice()) {
        Ok(loaded) => {
            print_renewed(rt, &loaded.old, config);
            Ok(loaded.gateway)
        }
        Err(fault) => Err(resume_trouble(rt.alloc(), path, fault)),
    }
}

// The gateway that a log has if one is named that has one; otherwise as without a log.
fn begun_gateway(
    rt: &(impl Files<File = File> + Eprint + AllocGlobal),
    config: &GatewayConfig,
    log: Option<&str>,
    path: Option<&str>,
) -> Result<Gateway, ProgramFault> {
    if let Some(folder) = log {
        if let Some(gateway) = resumed_gateway(rt, config, folder)? {
            return Ok(gateway);
        }
    }
    first_gateway(rt, config, path)
}

/// Opens the gateway of a session: one that goes on from the log in a folder, if one is named in which
/// something was kept; otherwise loads the state in a file if one is named, or opens a new gateway. Its
/// wait for an acknowledgement is that of the options; without one it is that of the state, or 100 signals.
/// Circuits whose configuration changed begin as new, and standard error says which.
pub fn begin_gateway(
    rt: &(impl Files<File = File> + Eprint + AllocGlobal),
    options: &SessionOptions<'_>,
    log: Option<&str>,
    config: &Config,
) -> Result<Gateway, ProgramFault> {
    let mut gateway = begun_gateway(rt, &config.gateway, log, options.load)?;
    if let Some(signals) = options.seizure_wait {
        gateway.release_seizures_after(signals);
    }
    Ok(gateway)
}

// The name of a state while it is written. The error is that memory was refused.
fn unfinished(alloc: Global, path: &str) -> Result<String, AllocError> {
    let mut name = String::from_str(alloc, path)?;
    name.push_str(".new")?;
    Ok(name)
}

// Writes octets to a new file at a path, which the disk keeps.
fn write_new(rt: &impl Files<File = File>, octets: &[u8], path: &str) -> io::Result<()> {
    let mut file = create_file(rt, path)?;
    file.write_all(octets)?;
    file.sync_all()
}

// Writes octets to a new file at a path, and gives it another one. What can't be written whole is removed.
fn replace(rt: &impl Files<File = File>, octets: &[u8], new: &str, path: &str) -> io::Result<()> {
    match write_new(rt, octets, new) {
        Ok(()) => fs::rename(rt, new, path),
        Err(error) => {
            let _ = fs::remove_file(rt, new);
            Err(error)
        }
    }
}

/// Saves the state of a gateway to a file, if one is named. It is written beside it, synced and renamed. If
/// that fails, the old file stays as it was.
pub(crate) fn keep_gateway(
    rt: &(impl Files<File = File> + AllocGlobal),
    config: &GatewayConfig,
    gateway: &Gateway,
    path: Option<&str>,
) -> Result<(), ProgramFault> {
    let Some(path) = path else {
        return Ok(());
    };
    let Ok(octets) = state_file(rt.alloc(), config, gateway) else {
        return Err(ProgramFault::OutOfMemory);
    };
    // (nothing is there, or a regular file that may be replaced)
    if let Ok(false) = is_regular(rt, path) {
        return Err(ProgramFault::NotSaved(format!(in rt.alloc(); "{path}: not a regular file")?));
    }
    let new = unfinished(rt.alloc(), path)?;
    match replace(rt, octets.as_slice(), new.as_str(), path) {
        Ok(()) => Ok(()),
        Err(error) => Err(ProgramFault::NotSaved(reason_at(rt.alloc(), path, &error)?)),
    }
}
