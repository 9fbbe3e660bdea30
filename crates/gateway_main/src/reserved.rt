//! Standard descriptors that the program was started without.
//!
//! While 0, 1 or 2 is closed, the next file or socket takes its number, and records would be read from it, or
//! answers written to it.

use std::fs::{File, OpenOptions};
use std::os::fd::{AsRawFd, RawFd};
use std::rt::Files;
use std::{fs, io};

// The file that replaces a closed descriptor.
const NULL: &str = "/dev/null";

/// The files that replace closed standard descriptors. As with closed ones, a read of 0 fails, and so does a
/// write to 1 and 2.
#[derive(Drop)]
pub(crate) struct ReservedDescriptors {
    input: Option<File>,
    output: Option<File>,
    error: Option<File>,
}

// Opens the file that replaces a descriptor, to be written or to be read.
fn open_null(rt: &impl Files<File = File>, for_writing: bool) -> io::Result<File> {
    if for_writing {
        OpenOptions::new().write(true).open(rt, NULL)
    } else {
        fs::open(rt, NULL)
    }
}

// The opened file, exactly if its descriptor is at most this standard one.
fn up_to(most: RawFd, opened: io::Result<File>) -> Option<File> {
    let Ok(file) = opened else {
        return None;
    };
    if file.as_raw_fd() <= most {
        Some(file)
    } else {
        None
    }
}

/// Opens a file for each of 0, 1 and 2 that is closed. If the system cannot open one, it stays closed.
pub(crate) fn reserve_descriptors(rt: &impl Files<File = File>) -> ReservedDescriptors {
    ReservedDescriptors {
        input: up_to(0, open_null(rt, true)),
        output: up_to(2, open_null(rt, false)),
        error: up_to(2, open_null(rt, false)),
    }
}
