//! How the room of a log's file is filled (`fill_file`).

ghost use Rattle.std.specs.Prelude.{◌≡◌, ◌≤◌, ◌+◌, OnOk};
ghost use Rattle.log_files.specs.Stores.{WhereKnown};
ghost use Rattle.gw_log.specs.Room.{FillsUpTo, WritesZeros};

use log_files::{FileStore, Store, StoreFault};
use std::fs::File;

// The octets that are written at once to a new file.
const PIECE: usize = 4_096;

// Writes this many zeros to a store from this octet on.
fn write_zeros<S: Store>(store: &mut S, at: u64, len: usize) -> Result<(), StoreFault>
    requires room { at + len ≤ S.room store.old }
    requires few { len ≤ 4096 }
    ensures ok { OnOk result (WhereKnown (S.holds store.old) (S.holds store.new) (WritesZeros at len)) }
    ensures room { S.room store.new ≡ S.room store.old }
{
    let zeros = [0; PIECE];
    store.write_at(at, &zeros[..len])
}

// Writes zeros to a store from this octet on, up to its room. What it has before stays.
fn fill<S: Store>(store: &mut S, from: u64) -> Result<(), StoreFault>
    requires { from ≤ S.room store.old }
    ensures ok { OnOk result (WhereKnown (S.holds store.old) (S.holds store.new)
        (FillsUpTo from (S.room store.old))) }
{
    let room = store.room();
    let mut at = from;
    while at < room {
        let len = (room - at).min(PIECE as u64);
        write_zeros(store, at, len as usize)?;
        at += len;
    }
    Ok(())
}

/// Writes zeros to a file from this octet on, up to its room.
pub fn fill_file(file: File, from: u64, room: u64) -> Result<(), StoreFault> {
    fill(&mut FileStore::new(file, room), from.min(room))
}
