//! A file as a store (`FileStore`).

ghost use Rattle.std.specs.Prelude.{◌≡◌, ◌+◌, ◌≤◌, length, OnOk, OnErr, None, false};
ghost use Rattle.log_files.specs.Files.{SystemPutsAt, SystemFailsToPutAt};
ghost use Rattle.log_files.specs.Stores.{TellsFault, WhereKnown, WritesAt, WritesHead};

use crate::store::{Store, StoreFault};
use std::fs::File;
use std::io;
use std::os::unix::fs::FileExt;

/// A file that is written over. What it holds is not known to proofs.
#[derive(Drop)]
pub struct FileStore {
    file: File,
    room: u64,
    failed: bool,
}

// Writes octets to a file, all of them, from an octet on. The error is the system's.
#[tactic(auto, unfolding(crate::specs::Files::SystemPutsAt, crate::specs::Files::SystemFailsToPutAt))]
fn put_at(file: &File, at: u64, octets: &[u8]) -> io::Result<()>
    ensures ok { OnOk result (SystemPutsAt file.now at octets.now) }
    ensures err { OnErr result (SystemFailsToPutAt file.now at octets.now) }
{
    file.write_all_at(octets, at)
}

impl FileStore {
    /// A file of `room` octets, which was opened to be written.
    pub fn new(file: File, room: u64) -> FileStore
        ensures { result ≡ record { file = file; room = room; failed = false } }
    {
        FileStore {
            file,
            room,
            failed: false,
        }
    }

    // Writes octets, all of them, from an octet on, and notes whether that failed.
    fn put(&mut self, at: u64, octets: &[u8]) -> Result<(), StoreFault>
        ensures ok { OnOk result (SystemPutsAt self.old.file at octets.now) }
        ensures err { OnErr result (SystemFailsToPutAt self.old.file at octets.now) }
        ensures fault { TellsFault self.old.failed self.new.failed result }
        ensures same { self.new ≡ record self.old { failed = self.new.failed } }
    {
        match put_at(&self.file, at, octets) {
            Ok(()) => Ok(()),
            Err(_) => {
                self.failed = true;
                Err(StoreFault)
            }
        }
    }
}

impl Store for FileStore {
    ghost holds = { λ _. None };

    ghost room = { λ store. store.room };

    ghost failed = { λ store. store.failed };

    fn room(&self) -> u64 {
        self.room
    }

    fn write_at(&mut self, at: u64, octets: &[u8]) -> Result<(), StoreFault>
        requires { at + length octets.now ≤ self.old.room }
        ensures writes { WhereKnown None None (WritesAt at octets.now result) }
        ensures fault { TellsFault self.old.failed self.new.failed result }
        ensures room { self.new.room ≡ self.old.room }
        ensures puts { OnOk result (SystemPutsAt self.old.file at octets.now) }
        ensures err { OnErr result (SystemFailsToPutAt self.old.file at octets.now) }
    {
        self.put(at, octets)
    }

    fn write_head(&mut self, head: &[u8; 24]) -> Result<(), StoreFault>
        requires { 24 ≤ self.old.room }
        ensures writes { WhereKnown None None (WritesHead head.now result) }
        ensures fault { TellsFault self.old.failed self.new.failed result }
        ensures room { self.new.room ≡ self.old.room }
        ensures puts { OnOk result (SystemPutsAt self.old.file 0 head.now) }
        ensures err { OnErr result (SystemFailsToPutAt self.old.file 0 head.now) }
    {
        self.put(0, head)
    }
}
