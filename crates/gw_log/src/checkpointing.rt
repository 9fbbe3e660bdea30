//! When a checkpoint of a gateway is written to files, and records are appended behind it (`FileLog`).

ghost use Rattle.std.specs.Prelude.{◌≡◌, ◌+◌, [], false, true, IfErr, OnOk};
ghost use Rattle.gw_log.specs.Logs.{Appended, CanAppend, Checkpointed, Shown, Uncheckpointed};

use crate::checkpoint_octets::checkpoint_of;
use gw_records::Log;
use gw_switch::{Gateway, GatewayConfig};
use log_files::{LogFiles, Store};
use std::alloc::Global;
use std::marker::Model;
use thiserror::Error;

// How many octets of records are behind a state before the next one is written.
const MANY_OCTETS: u32 = 1_048_576;

/// Why no state was written.
#[derive(Clone, Copy, Debug, PartialEq, Eq, Error)]
pub enum LogFault {
    /// Memory was refused.
    #[error("out of memory")]
    OutOfMemory,
    /// The state does not fit into its file.
    #[error("no room for the state")]
    NoRoom,
    /// A write failed.
    #[error("a write failed")]
    Write,
}

// Keeps a gateway, and the records of what it takes behind that, in files. If a write fails, or there is no
// room for octets, it ends.
#[derive(Drop)]
pub(crate) struct FileLog<S: Store> {
    alloc: Global,
    files: LogFiles<S>,
    config: GatewayConfig,
    // How many octets of records it took since it was first begun.
    place: u64,
    ended: bool,
    broken: bool,
    failures: u64,
    taken: Log,
}

impl<S: Store> Model for FileLog<S> {
    ghost use Rattle.std.specs.Prelude.{◌≡◌, false};
    ghost use Rattle.gw_log.specs.Logs.{TrunkLogState};

    ghost Value = { TrunkLogState };

    ghost view = { λ log. record {
      files = log.files;
      config = log.config;
      place = log.place;
      ended = log.ended;
      broken = log.broken;
      failures = log.failures;
      taken = log.taken.octets;
    } };

    ghost invariant = { λ log. log.ended ≡ false → log.failures ≡ 0 };
}

impl<S: Store> FileLog<S> {
    // The log that has these files and has taken `place` octets of records. Nothing is written.
    pub(crate) fn new(
        alloc: Global,
        files: LogFiles<S>,
        config: GatewayConfig,
        place: u64,
    ) -> FileLog<S>
        ensures { result ≡ record {
          files = files;
          config = config;
          place = place;
          ended = false;
          broken = false;
          failures = 0;
          taken = [];
        } }
    {
        FileLog {
            alloc,
            files,
            config,
            place,
            ended: false,
            broken: false,
            failures: 0,
            taken: Log::new(),
        }
    }

    // Whether it has ended.
    pub(crate) fn has_ended(&self) -> bool
        ensures { result ≡ self.now.ended }
    {
        self.ended
    }

    // Writes a checkpoint of the gateway.
    pub(crate) fn checkpoint(&mut self, gateway: &Gateway) -> Result<(), LogFault>
        requires { self.old.broken ≡ false }
        ensures ok { OnOk result (Checkpointed self.old self.new gateway.now) }
        ensures err { IfErr result (Uncheckpointed self.old self.new gateway.now) }
    {
        let Ok(state) = checkpoint_of(self.alloc, &self.config, gateway, self.place) else {
            return Err(LogFault::OutOfMemory);
        };
        if !self.files.can_take(state.len()) {
            return Err(LogFault::NoRoom);
        }
        match self.files.checkpoint(state.as_slice()) {
            Ok(()) => Ok(()),
            Err(_) => {
                self.broken = true;
                Err(LogFault::Write)
            }
        }
    }

    // Ends the log, since octets of records are not appended.
    fn fail(&mut self)
        requires { self.old.ended ≡ false }
        ensures { self.new ≡ record self.old { ended = true; failures = self.old.failures + 1 } }
    {
        self.ended = true;
        self.failures += 1;
    }

    // Whether octets of records can be appended.
    fn can_append(&self, len: usize) -> bool
        ensures yes { result ≡ true → CanAppend self.now len }
        ensures no { result ≡ false → ¬ CanAppend self.now len }
    {
        !self.broken && self.files.has_room(len) && len as u64 <= u64::MAX - self.place
    }

    // Appends octets of records, unless the log has ended.
    pub(crate) fn append(&mut self, octets: &[u8])
        ensures { Appended self.old self.new octets.now }
    {
        if self.ended {
            return;
        }
        if !self.can_append(octets.len()) {
            self.fail();
            return;
        }
        if self.files.append(octets).is_err() {
            self.broken = true;
            self.fail();
            return;
        }
        self.place += octets.len() as u64;
        self.taken.append(octets, octets.len());
    }

    // Ends the log.
    pub(crate) fn end(&mut self)
        ensures { self.new ≡ record self.old { ended = true } }
    {
        self.ended = true;
    }

    // Writes a checkpoint of a gateway that is shown, if many octets of records are behind the last one.
    pub(crate) fn keep(&mut self, gateway: &Gateway)
        ensures { Shown self.old self.new gateway.now }
    {
        if self.ended || self.broken || self.files.records_len() < MANY_OCTETS {
            return;
        }
        let _ = self.checkpoint(gateway);
    }
}
