//! How files are opened and read.

use std::fs::{self, File, OpenOptions};
use std::io::{self, Read};
use std::os::fd::OwnedFd;
use std::os::unix::fs::OpenOptionsExt;
use std::os::unix::net::UnixStream;
use std::rt::Files;

// The permissions of a new file, less the umask: others may not read it, since it holds the speech of all
// calls.
const MODE: u32 = 0o640;

/// Reads the file at a path, at most so many octets.
pub(crate) fn read_file(
    rt: &(impl Files<File = File> + AllocGlobal),
    path: &str,
    most: u64,
) -> io::Result<Vec<u8>> {
    let mut octets = Vec::new(rt.alloc());
    fs::open(rt, path)?.take(most).read_to_end(&mut octets)?;
    Ok(octets)
}

/// Whether a regular file is at a path.
pub(crate) fn is_regular(rt: &impl Files<File = File>, path: &str) -> io::Result<bool> {
    Ok(fs::metadata(rt, path)?.is_file())
}

/// Creates the file at a path, or empties the one that is there, which keeps its permissions.
pub(crate) fn create_file(rt: &impl Files<File = File>, path: &str) -> io::Result<File> {
    OpenOptions::new()
        .write(true)
        .create(true)
        .truncate(true)
        .mode(MODE)
        .open(rt, path)
}

/// Opens the file at a path to be read and written, or creates it. What it has stays.
pub(crate) fn open_or_create(rt: &impl Files<File = File>, path: &str) -> io::Result<File> {
    OpenOptions::new()
        .read(true)
        .write(true)
        .create(true)
        .mode(MODE)
        .open(rt, path)
}

/// Has each call on a file fail that would wait. (What is set is set of all descriptors of this opening of
/// the file, so it is set through another one, by a type that can set it. What was opened by its path has no
/// others.)
pub(crate) fn never_wait(file: &File) -> io::Result<()> {
    UnixStream::from(OwnedFd::from(file.try_clone()?)).set_nonblocking(true)
}
