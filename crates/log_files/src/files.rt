//! Two pairs of stores, of which one has the newest state and the records behind it (`LogFiles`).

ghost use Rattle.std.specs.Prelude.{◌≡◌, ◌⊎◌, ◌+◌, ◌<◌, ◌^◌, ◌++◌, [], true, false, length};
ghost use Rattle.std.specs.Prelude.{IfSome, OnOk, OnErr};
ghost use Rattle.log_files.specs.Adler.{sums_of};
ghost use Rattle.log_files.specs.Pairs.{Appends, CanTake, FitsBehind, IsBefore, Kept, LeavesKept, MayLeave};
ghost use Rattle.log_files.specs.Pairs.{StandsFor, begun, with_more};
ghost use Rattle.log_files.specs.Stores.{TellsFault, WhereKnown};

use crate::adler::Adler;
use crate::head::HEAD_LEN;
use crate::pair::Pair;
use crate::store::{Store, StoreFault};
use std::marker::Model;
use std::mem;

/// The files of a log. One pair has the newest state and all records that were appended since; the other one
/// has what was before, or a part of what comes next. Behind a write that failed nothing more is written.
#[derive(Drop)]
pub struct LogFiles<S: Store> {
    newest: Pair<S>,
    other: Pair<S>,
    turn: u64,
    // How many octets of records the newest pair has, and their checksum.
    len: u32,
    sums: Adler,
}

impl<S: Store> Model for LogFiles<S> {
    ghost use Rattle.log_files.specs.Pairs.{LogState};

    ghost Value = { LogState };

    ghost view = { λ files. record {
      newest = files.newest;
      other = files.other;
      turn = files.turn;
      len = files.len;
      sums = files.sums;
    } };
}

impl<S: Store> LogFiles<S> {
    /// The files of a log whose newest pair has these records, of this turn. Nothing is written.
    pub fn open(newest: Pair<S>, other: Pair<S>, turn: u64, records: &[u8]) -> LogFiles<S>
        requires { length records.now < 2 ^ 32 }
        ensures { result ≡ record {
          newest = newest;
          other = other;
          turn = turn;
          len = length records.now;
          sums = sums_of records.now;
        } }
    {
        let mut sums = Adler::new();
        sums.add(records);
        LogFiles {
            newest,
            other,
            turn,
            len: records.len() as u32,
            sums,
        }
    }

    /// How many octets of records there are.
    pub fn records_len(&self) -> u32
        ensures { result ≡ self.now.len }
    {
        self.len
    }

    /// Whether `len` octets of records fit behind the others.
    pub fn has_room(&self, len: usize) -> bool
        ensures yes { result ≡ true → FitsBehind self.now len }
        ensures no { result ≡ false → ¬ FitsBehind self.now len }
    {
        let room = self.newest.records.room();
        let most = (u32::MAX - self.len) as usize;
        len <= most && HEAD_LEN as u64 + u64::from(self.len) + len as u64 <= room
    }

    /// Whether a state of `len` octets can be written.
    pub fn can_take(&self, len: usize) -> bool
        ensures yes { result ≡ true → CanTake self.now len }
        ensures no { result ≡ false → ¬ CanTake self.now len }
    {
        let room = self.other.state.room();
        len <= u32::MAX as usize && HEAD_LEN as u64 + len as u64 <= room && self.turn < u64::MAX
    }

    /// Appends octets of records. If it fails they are there whole or not at all.
    pub fn append(&mut self, octets: &[u8]) -> Result<(), StoreFault>
        requires { FitsBehind self.old (length octets.now) }
        ensures ok { OnOk result ((kept : Kept) → StandsFor self.old kept
            → StandsFor self.new (with_more kept octets.now)) }
        ensures err { OnErr result ((kept : Kept) → StandsFor self.old kept
            → LeavesKept self.new kept ⊎ LeavesKept self.new (with_more kept octets.now)) }
        ensures fault { TellsFault self.old.newest.failed self.new.newest.failed result }
        ensures others { Appends self.old self.new }
    {
        self.sums.add(octets);
        self.newest
            .append(self.turn, self.len, octets, self.sums.sum())?;
        self.len += octets.len() as u32;
        Ok(())
    }

    /// Writes a state, with no record behind it. If it fails the log has this, or all that it had.
    pub fn checkpoint(&mut self, state: &[u8]) -> Result<(), StoreFault>
        requires { CanTake self.old (length state.now) }
        ensures begins { OnOk result (IfSome self.old.newest.contents (IsBefore (self.old.turn + 1))
            → StandsFor self.new (begun (self.old.turn + 1) state.now)) }
        ensures ok { OnOk result ((kept : Kept) → StandsFor self.old kept
            → StandsFor self.new (begun (kept.turn + 1) state.now)) }
        ensures err { OnErr result ((kept : Kept) → StandsFor self.old kept
            → LeavesKept self.new kept ⊎ LeavesKept self.new (begun (kept.turn + 1) state.now)) }
        ensures exchanged { OnOk result (self.new ≡ record {
          newest = record self.old.other { contents = self.new.newest.contents };
          other = self.old.newest;
          turn = self.old.turn + 1;
          len = 0;
          sums = sums_of [];
        }) }
        ensures same { OnErr result (self.new ≡ record self.old {
          other = record self.old.other { contents = self.new.other.contents; failed = true };
        }) }
        ensures written { OnErr result (WhereKnown self.old.other.contents self.new.other.contents
            (MayLeave (begun (self.old.turn + 1) state.now))) }
    {
        let turn = self.turn + 1;
        self.other.write(turn, state)?;
        mem::swap(&mut self.newest, &mut self.other);
        self.turn = turn;
        self.len = 0;
        self.sums = Adler::new();
        Ok(())
    }
}
