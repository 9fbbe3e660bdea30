//! What a trunk in service keeps of itself: a state of its gateway, and the records behind it (`TrunkLog`).

ghost use Rattle.std.specs.Prelude.{◌≡◌, ◌∷◌, [], false, true, IfErr, IfSome, OnOk};
ghost use Rattle.log_files.specs.Loading.{IsCounted};
ghost use Rattle.log_files.specs.Pairs.{Contents};
ghost use Rattle.gw_records.specs.Records.{IsGood, named, spelled};
ghost use Rattle.gw_session.specs.Answers.{events_of};
ghost use Rattle.gw_session.specs.Running.{all_kinds};
ghost use Rattle.gw_session.specs.Tape.{HasEnded, Learns, Recorded, WritesRecords};
ghost use Rattle.gw_session.specs.Tape.{answers_at, gone_to, keeps_at};
ghost use Rattle.gw_log.specs.LogTape.{IsOpenedOver};
ghost use Rattle.gw_log.specs.Resuming.{IsFoundIn};
ghost use Rattle.gw_log.specs.Logs.{IsUnused};
ghost use Rattle.gw_log.specs.Logs.{Appended, Checkpointed, Shown, Uncheckpointed, files_over};
ghost use Rattle.gw_log.specs.Logs.{place_after_kept, place_after_loaded, told_by};

use crate::checkpoint_octets::checkpoint_place;
use crate::checkpointing::{FileLog, LogFault};
use gw_records::{Line, RecordHead};
use gw_session::{PacketPorts, Tape, TrunkRecord, spell};
use gw_switch::{Gateway, GatewayConfig};
use log_files::{KeptContents, Loaded, LogFiles, Pair, Store};
use std::alloc::Global;
use std::marker::Model;

// The place behind what was kept: that of its checkpoint, and the octets of records behind it.
fn place_after_kept(kept: &KeptContents<'_>) -> u64
    ensures { result ≡ place_after_kept kept.now }
{
    checkpoint_place(kept.state).saturating_add(kept.records.len() as u64)
}

// The files of a log of whose pairs this was loaded.
fn files_over<S: Store>(first: Pair<S>, second: Pair<S>, loaded: Option<Loaded<'_>>) -> LogFiles<S>
    requires { IfSome loaded IsCounted }
    ensures { result ≡ files_over first second loaded.entry }
{
    match loaded {
        Some(Loaded::First(kept)) => LogFiles::open(first, second, kept.turn, kept.records),
        Some(Loaded::Second(kept)) => LogFiles::open(second, first, kept.turn, kept.records),
        None => LogFiles::open(second, first, 0, &[]),
    }
}

// The place behind what was loaded.
fn place_after_loaded(loaded: &Option<Loaded<'_>>) -> u64
    ensures { result ≡ place_after_loaded loaded.now }
{
    match loaded {
        Some(Loaded::First(kept)) | Some(Loaded::Second(kept)) => place_after_kept(kept),
        None => 0,
    }
}

/// Keeps a gateway, and the records of what it takes behind that, in files. Before a record, if 1 MiB of
/// records is behind the gateway that the files have, it writes the present one. If a write fails, or there
/// is no room for a record, it ends, and so does a session with it ([`Tape::is_lost`]).
#[derive(Drop)]
pub struct TrunkLog<S: Store> {
    room: Box<TrunkRecord>,
    log: FileLog<S>,
}

impl<S: Store> Model for TrunkLog<S> {
    ghost use Rattle.gw_log.specs.Logs.{TrunkLogState};

    ghost Value = { TrunkLogState };

    ghost view = { λ log. log.log };
}

impl<S: Store> TrunkLog<S> {
    /// The log that has these files and has taken `place` octets of records, with room for one. Nothing is
    /// written.
    pub fn new(
        alloc: Global,
        files: LogFiles<S>,
        config: GatewayConfig,
        room: Box<TrunkRecord>,
        place: u64,
    ) -> TrunkLog<S>
        ensures { result ≡ record {
          files = files;
          config = config;
          place = place;
          ended = false;
          broken = false;
          failures = 0;
          taken = [];
        } }
    {
        TrunkLog {
            room,
            log: FileLog::new(alloc, files, config, place),
        }
    }

    /// The log that goes on with two pairs of files, of which this was loaded, if there was something. Its
    /// next checkpoint goes to the other pair.
    pub fn over(
        alloc: Global,
        first: Pair<S>,
        second: Pair<S>,
        loaded: Option<Loaded<'_>>,
        config: GatewayConfig,
        room: Box<TrunkRecord>,
    ) -> TrunkLog<S>
        requires { IfSome loaded IsCounted }
        ensures { result ≡ record {
          files = files_over first second loaded.entry;
          config = config;
          place = place_after_loaded loaded.entry;
          ended = false;
          broken = false;
          failures = 0;
          taken = [];
        } }
    {
        let place = place_after_loaded(&loaded);
        TrunkLog::new(
            alloc,
            files_over(first, second, loaded),
            config,
            room,
            place,
        )
    }

    /// Writes a checkpoint of the gateway, which stands behind all that the log took.
    ///
    /// # Errors
    ///
    /// [`LogFault::OutOfMemory`] and [`LogFault::NoRoom`]: nothing was written. [`LogFault::Write`]: no write
    /// follows.
    pub fn checkpoint(&mut self, gateway: &Gateway) -> Result<(), LogFault>
        requires { self.old.broken ≡ false }
        ensures ok { OnOk result (Checkpointed self.old self.new gateway.now) }
        ensures err { IfErr result (Uncheckpointed self.old self.new gateway.now) }
    {
        self.log.checkpoint(gateway)
    }
}

impl<S: Store> Tape for TrunkLog<S> {
    ghost tells = { told_by };

    ghost is_lost = { λ log. log.ended };

    fn put(&mut self, head: RecordHead, body: &[u8])
        requires { IsGood all_kinds (named head body.now) }
        ensures recorded { Recorded (told_by self.old) (told_by self.new) (events_of (named head body.now)) }
        ensures acts { (told_by self.new).acts ≡ (told_by self.old).acts }
        ensures kept { Appended self.old self.new (spelled (named head body.now)) }
    {
        spell(&mut self.room, head, body);
        self.log.append(self.room.as_slice());
    }

    fn put_together(&mut self, octets: &[u8])
        ensures written { WritesRecords (told_by self.old) (told_by self.new) octets.now }
        ensures acts { (told_by self.new).acts ≡ (told_by self.old).acts }
        ensures kept { Appended self.old self.new octets.now }
    {
        self.log.append(octets);
    }

    fn end(&mut self)
        ensures ends { HasEnded (told_by self.old) (told_by self.new) }
        ensures same { self.new ≡ record self.old { ended = true } }
    {
        self.log.end();
    }

    fn is_lost(&self) -> bool
        ensures { result ≡ self.now.ended }
    {
        self.log.has_ended()
    }

    fn keep<O: PacketPorts<L>, L: Line>(&mut self, gateway: &Gateway, _ports: &O, _line: &L)
        ensures learns { Learns (told_by self.old) (told_by self.new)
            (keeps_at (told_by self.old) gateway.now (gone_to (O.tells _ports.now) (L.output _line.now).sink) ∷ []) }
        ensures kept { Shown self.old self.new gateway.now }
    {
        self.log.keep(gateway);
    }

    fn before_answer<O: PacketPorts<L>, L: Line>(&mut self, _ports: &O, _line: &L)
        ensures learns { Learns (told_by self.old) (told_by self.new)
            (answers_at (told_by self.old) (gone_to (O.tells _ports.now) (L.output _line.now).sink) ∷ []) }
        ensures same { self.new ≡ self.old }
    {}
}

/// The log of two pairs of files, behind what they have. Nothing is written yet.
pub fn log_behind<S: Store>(
    alloc: Global,
    first: Pair<S>,
    second: Pair<S>,
    loaded: Option<Loaded<'_>>,
    config: &GatewayConfig,
    room: Box<TrunkRecord>,
) -> TrunkLog<S>
    requires { IfSome loaded IsCounted }
    ensures unused { IsUnused config.now result }
    ensures over { (one other : Contents) → IsFoundIn one other loaded.entry → IsOpenedOver one other result }
{
    TrunkLog::over(alloc, first, second, loaded, *config, room)
}
