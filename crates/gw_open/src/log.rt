//! How the log of a trunk is read from its folder, and begun (`begin_log`).

use crate::log_folder::{RECORDS_ROOM, STATE_ROOM, in_folder, no_log, open_in};
use crate::state::resume_trouble;
use gw_command::TrunkOptions;
use gw_config::Config;
use gw_log::{LogContents, LogFault, PairOctets, TrunkLog, log_behind};
use gw_report::ProgramFault;
use gw_session::TrunkRecord;
use gw_switch::Gateway;
use log_files::{FileStore, Pair, read_area};
use std::alloc::Global;
use std::fs::{self, File};
use std::io;
use std::rt::Files;

// What the file at a path has.
fn read_area_at(rt: &(impl Files<File = File> + AllocGlobal), path: &str) -> io::Result<Vec<u8>> {
    let mut file = fs::open(rt, path)?;
    read_area(rt.alloc(), &mut file)
}

// What the file of this name in a folder has.
fn area_in(
    rt: &(impl Files<File = File> + AllocGlobal),
    folder: &str,
    name: &str,
) -> Result<Vec<u8>, ProgramFault> {
    let path = in_folder(rt.alloc(), folder, name)?;
    match read_area_at(rt, path.as_str()) {
        Ok(octets) => Ok(octets),
        Err(error) => Err(no_log(rt.alloc(), path.as_str(), &error)),
    }
}

/// Reads the files of the log in a folder.
pub(crate) fn log_contents(
    rt: &(impl Files<File = File> + AllocGlobal),
    folder: &str,
) -> Result<LogContents, ProgramFault> {
    Ok(LogContents {
        first: PairOctets {
            state: area_in(rt, folder, "state.0")?,
            records: area_in(rt, folder, "records.0")?,
        },
        second: PairOctets {
            state: area_in(rt, folder, "state.1")?,
            records: area_in(rt, folder, "records.1")?,
        },
    })
}

// Opens a pair of files to be written over.
fn pair_at(
    rt: &(impl Files<File = File> + AllocGlobal),
    folder: &str,
    state: &str,
    records: &str,
) -> Result<Pair<FileStore>, ProgramFault> {
    let state = open_in(rt, folder, state)?;
    let records = open_in(rt, folder, records)?;
    Ok(Pair::new(
        FileStore::new(state, STATE_ROOM),
        FileStore::new(records, RECORDS_ROOM),
    ))
}

// The fault if the log in a folder takes no state.
fn no_checkpoint(alloc: Global, folder: &str, fault: LogFault) -> ProgramFault {
    match (fault, format!(in alloc; "{folder}: {fault}")) {
        (LogFault::NoRoom | LogFault::Write, Ok(reason)) => ProgramFault::NoLog(reason),
        (_, _) => ProgramFault::OutOfMemory,
    }
}

/// Begins the log of a trunk, if it is to have one: it goes on behind what its folder has, and keeps this
/// gateway, and from then on what is appended.
///
/// # Errors
///
/// [`ProgramFault::NoLog`] if the system refuses a file or a write, [`ProgramFault::BadLog`] if nothing is
/// whole in the files, [`ProgramFault::OutOfMemory`].
pub fn begin_log(
    rt: &(impl Files<File = File> + AllocGlobal),
    options: &TrunkOptions<'_>,
    config: &Config,
    gateway: &Gateway,
) -> Result<Option<TrunkLog<FileStore>>, ProgramFault> {
    let Some(folder) = options.log else {
        return Ok(None);
    };
    let contents = log_contents(rt, folder)?;
    let loaded = match contents.newest() {
        Ok(loaded) => loaded,
        Err(fault) => return Err(resume_trouble(rt.alloc(), folder, fault)),
    };
    let first = pair_at(rt, folder, "state.0", "records.0")?;
    let second = pair_at(rt, folder, "state.1", "records.1")?;
    let Ok(room) = Box::new(rt.alloc(), TrunkRecord::new()) else {
        return Err(ProgramFault::OutOfMemory);
    };
    let mut log = log_behind(rt.alloc(), first, second, loaded, &config.gateway, room);
    match log.checkpoint(gateway) {
        Ok(()) => Ok(Some(log)),
        Err(fault) => Err(no_checkpoint(rt.alloc(), folder, fault)),
    }
}
