//! The number of the process that has the folder of a log, in the file of its lock.

use std::fs::{self, File};
use std::io::{self, Read};
use std::os::unix::fs::FileExt;
use std::rt::Files;

// The number that a text begins with, at most 2^32 - 1; 0 if it begins with none.
fn process_in(octets: &[u8]) -> u32 {
    let mut number = 0u32;
    for octet in octets {
        if !octet.is_ascii_digit() {
            return number;
        }
        number = number
            .saturating_mul(10)
            .saturating_add(u32::from(*octet & 15));
    }
    number
}

// The number of this process, in decimal, and behind it a line feed.
fn own_process(rt: &(impl Files<File = File> + AllocGlobal)) -> io::Result<Vec<u8>> {
    let mut octets = Vec::new(rt.alloc());
    fs::open(rt, "/proc/self/stat")?
        .take(16)
        .read_to_end(&mut octets)?;
    let mut line = Vec::new(rt.alloc());
    for octet in octets.as_slice() {
        if !octet.is_ascii_digit() {
            break;
        }
        line.push(*octet)?;
    }
    line.push(b'\n')?;
    Ok(line)
}

/// Writes the number of this process into the file of its lock.
pub(crate) fn note_process(
    rt: &(impl Files<File = File> + AllocGlobal),
    lock: &File,
) -> io::Result<()> {
    lock.write_all_at(own_process(rt)?.as_slice(), 0)
}

/// The process that has a lock, as its file says.
pub(crate) fn holder(lock: &File) -> u32 {
    let mut octets = [0; 16];
    match lock.read_at(&mut octets, 0) {
        Ok(_) => process_in(&octets),
        Err(_) => 0,
    }
}
