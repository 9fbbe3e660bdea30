//! How the FIFO of `--reports` is opened, between `crc4 --check` and `crc4`.

use crate::files::{is_regular, never_wait};
use gw_report::{ProgramFault, reason_at};
use std::fs::{File, OpenOptions};
use std::io;
use std::rt::Files;

// Opens what is at a path to be read and written, so that the opening of a FIFO waits for nobody, and no call
// of it waits.
fn open(rt: &impl Files<File = File>, path: &str) -> io::Result<File> {
    let file = OpenOptions::new().read(true).write(true).open(rt, path)?;
    never_wait(&file)?;
    Ok(file)
}

/// Opens the FIFO of reports at a path, if one is named; no read or write of it waits.
///
/// # Errors
///
/// [`ProgramFault::Reports`] if it can't be opened or is a regular file, or want of memory.
pub fn open_reports(
    rt: &(impl Files<File = File> + AllocGlobal),
    path: Option<&str>,
) -> Result<Option<File>, ProgramFault> {
    let Some(path) = path else {
        return Ok(None);
    };
    let opened = match is_regular(rt, path) {
        Ok(true) => {
            return Err(ProgramFault::Reports(format!(in rt.alloc();
                "{path}: a regular file, and not a FIFO"
            )?));
        }
        Ok(false) => open(rt, path),
        Err(error) => Err(error),
    };
    match opened {
        Ok(file) => Ok(Some(file)),
        Err(error) => Err(ProgramFault::Reports(reason_at(rt.alloc(), path, &error)?)),
    }
}
