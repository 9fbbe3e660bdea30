//! The folder of a trunk's log: who has it, and the room of its files (`lock_log`).

use crate::files::open_or_create;
use crate::lock_process::{holder, note_process};
use gw_command::TrunkOptions;
use gw_log::fill_file;
use gw_report::{ProgramFault, reason_at};
use std::alloc::{AllocError, Global};
use std::fs::File;
use std::io;
use std::rt::Files;

/// The octets of the file of a state.
pub(crate) const STATE_ROOM: u64 = 262_144;

/// The octets of the file of the records behind a state.
pub(crate) const RECORDS_ROOM: u64 = 8_388_608;

// The octets of all four files.
const LOG_ROOM: u64 = 17_301_504;

/// Keeps the folder of a log from other processes, as long as it lives.
#[derive(Drop)]
pub struct LogLock {
    // The file that is locked as long as it is open.
    file: File,
}

/// The path of a file of this name in a folder. The error is that memory was refused.
pub(crate) fn in_folder(alloc: Global, folder: &str, name: &str) -> Result<String, AllocError> {
    let mut path = String::from_str(alloc, folder)?;
    path.push_str("/")?;
    path.push_str(name)?;
    Ok(path)
}

/// The fault if the system refuses what is at a path: a file of a log, or its folder.
pub(crate) fn no_log(alloc: Global, path: &str, error: &io::Error) -> ProgramFault {
    match reason_at(alloc, path, error) {
        Ok(reason) => ProgramFault::NoLog(reason),
        Err(fault) => fault,
    }
}

/// Opens the file of this name in a folder, or creates it.
pub(crate) fn open_in(
    rt: &(impl Files<File = File> + AllocGlobal),
    folder: &str,
    name: &str,
) -> Result<File, ProgramFault> {
    let path = in_folder(rt.alloc(), folder, name)?;
    match open_or_create(rt, path.as_str()) {
        Ok(file) => Ok(file),
        Err(error) => Err(no_log(rt.alloc(), path.as_str(), &error)),
    }
}

// Gives the file of this name in a folder all its room. What it has stays.
fn make_room(
    rt: &(impl Files<File = File> + AllocGlobal),
    folder: &str,
    name: &str,
    room: u64,
) -> Result<(), ProgramFault> {
    let file = open_in(rt, folder, name)?;
    let len = match file.metadata() {
        Ok(found) => found.len(),
        Err(error) => return Err(no_log(rt.alloc(), folder, &error)),
    };
    match fill_file(file, len, room) {
        Ok(()) => Ok(()),
        Err(_) => Err(ProgramFault::LogRoom(String::from_str(rt.alloc(), folder)?, LOG_ROOM)),
    }
}

// Takes the lock of a folder.
fn lock_of(
    rt: &(impl Files<File = File> + AllocGlobal),
    folder: &str,
) -> Result<File, ProgramFault> {
    let lock = open_in(rt, folder, "lock")?;
    match lock.try_lock() {
        Ok(()) => Ok(lock),
        Err(error) => {
            let error = io::Error::from(error);
            match error.kind() {
                io::ErrorKind::WouldBlock => Err(ProgramFault::LogInUse(
                    String::from_str(rt.alloc(), folder)?,
                    holder(&lock),
                )),
                _ => Err(no_log(rt.alloc(), folder, &error)),
            }
        }
    }
}

/// Takes the folder of a trunk's log for this process, and the room of its files, if it has one.
///
/// # Errors
///
/// [`ProgramFault::LogInUse`] if another process has it, [`ProgramFault::LogRoom`] if there is too little
/// room, [`ProgramFault::NoLog`] if the system refuses a file, [`ProgramFault::OutOfMemory`].
pub fn lock_log(
    rt: &(impl Files<File = File> + AllocGlobal),
    options: &TrunkOptions<'_>,
) -> Result<Option<LogLock>, ProgramFault> {
    let Some(folder) = options.log else {
        return Ok(None);
    };
    let file = lock_of(rt, folder)?;
    make_room(rt, folder, "state.0", STATE_ROOM)?;
    make_room(rt, folder, "records.0", RECORDS_ROOM)?;
    make_room(rt, folder, "state.1", STATE_ROOM)?;
    make_room(rt, folder, "records.1", RECORDS_ROOM)?;
    let _ = note_process(rt, &file);
    Ok(Some(LogLock { file }))
}
