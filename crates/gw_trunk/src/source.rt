//! Whether octets of the trunk or a client's command are the next record of a session (`TrunkRecordSource`).

ghost use Rattle.std.specs.Prelude.{◌≡◌, ◌<◌, ◌≤◌, ◌^◌, ◌-◌, ◌+◌, ◌++◌, [], length, IfOk, IfErr};
ghost use Rattle.std.specs.Prelude.{IfSome, IfNone};
ghost use Rattle.std.specs.Prelude.{OnErr, OnOk, Ok, Some, None, true, false, is_ok, ◌⊎◌};
ghost use Rattle.gw_records.specs.Records.{IsGood, end_of, named, spelled};
ghost use Rattle.gw_records.specs.Streams.{CanCount, CountsRead, CountsTurn};
ghost use Rattle.gw_records.specs.declared.records.FirstRecord.{FirstRecord};
ghost use Rattle.gw_trunk.specs.Pieces.{AsksFirst, GivesWoven, LacksRecord, LogsFirst, ReadsRecord};
ghost use Rattle.gw_trunk.specs.Pieces.{client_kinds};
ghost use Rattle.gw_records.specs.Reader.{FailsToRead, ReadsOn};
ghost use Rattle.gw_trunk.specs.Pieces.{held_in, holding, is_accepted, most_octets, stands_in_room};
ghost use Rattle.gw_trunk.specs.Pieces.{source_told};

use crate::device::{DeviceRead, TrunkInput};
use gw_records::{FRONT_LEN, FirstRecord, Log, RecordHead, SourceFault};

/// The octets of a trunk as T records, and C and K records of clients between them. Each read gives one whole
/// record: the octets that have come, or a record of a client. Between two records of clients the trunk was
/// read. If neither has anything it waits.
#[derive(Drop)]
pub struct TrunkRecordSource<I: TrunkInput> {
    incoming: I,
    // Whether clients are asked before the trunk is read.
    turn: bool,
    failed: u64,
    reads: u64,
    log: Log,
    ghost woven: { ∥ GivesWoven (I.came incoming) (I.asked incoming) log.octets ∥₁ },
    ghost in_turn: { turn ≡ true → I.is_turn incoming ≡ true },
}

/// The octets of a trunk that a record has at most. A device that gives blocks needs room for a whole one.
pub const ROOM_LEN: usize = 2_048;

// The record of a client, with its length.
fn client_record(head: RecordHead) -> FirstRecord
    requires { IsGood client_kinds (named head []) }
    ensures head { result.head ≡ head }
    ensures len { result.len ≡ length (spelled (named head [])) }
{
    let body_len = match head {
        RecordHead::Codec(..) => 2,
        _ => 1,
    };
    FirstRecord {
        head,
        len: FRONT_LEN + body_len,
    }
}

// Logs the record that a read gave, if there is one.
fn log_first(log: &mut Log, got: &Option<FirstRecord>, room: &[u8; ROOM_LEN])
    requires { IfSome got.now (λ first. (4 ≤ first.len) × (first.len ≤ 4 + most_octets)) }
    ensures { log.new.octets ≡ log.old.octets ++ held_in got.now room.now }
{
    if let Some(first) = got {
        log.append_record(&first.head, &room[..first.len - FRONT_LEN]);
    }
}

// The next record of a client, where it is their turn.
fn command_in_turn<I: TrunkInput>(incoming: &mut I, turn: &mut bool) -> Option<FirstRecord>
    requires { turn.old ≡ true → I.is_turn incoming.old ≡ true }
    ensures came { I.came incoming.new ≡ I.came incoming.old }
    ensures asked { IfSome result (AsksFirst (I.asked incoming.old) (I.asked incoming.new)) }
    ensures none { IfNone result (I.asked incoming.new ≡ I.asked incoming.old) }
    ensures turn { turn.new ≡ false }
    ensures told { I.told incoming.new ≡ I.told incoming.old }
{
    if !*turn {
        return None;
    }
    *turn = false;
    match incoming.command() {
        Some(head) => Some(client_record(head)),
        None => None,
    }
}

// The next record, with the octets of the trunk at the front of `room`; None at the end of the trunk. It is a
// client's only if `turn` holds or the trunk has none, and the source waits only if a client has none either.
fn next_record<I: TrunkInput>(
    incoming: &mut I,
    turn: &mut bool,
    room: &mut [u8],
) -> Result<Option<FirstRecord>, SourceFault>
    requires turn { turn.old ≡ true → I.is_turn incoming.old ≡ true }
    requires some { 0 < length room.old }
    requires few { length room.old ≤ most_octets }
    ensures reads { ReadsRecord (I.came incoming.old) (I.came incoming.new)
        (I.asked incoming.old) (I.asked incoming.new) result room.new }
    ensures turn { turn.new ≡ true → I.is_turn incoming.new ≡ true }
    ensures ended { IfOk result (λ got. IfNone got (I.has_ended incoming.new)) }
    ensures fails { OnErr result (LacksRecord (I.has_failed incoming.new) (2 ^ 63 ≤ I.waits incoming.new)) }
    ensures told { I.told incoming.new ≡ I.told incoming.old }
{
    if let Some(first) = command_in_turn(incoming, turn) {
        return Ok(Some(first));
    }
    for _turn in 0..u64::MAX {
        match incoming.read(room) {
            Ok(DeviceRead::Octets(n)) => {
                *turn = true;
                return Ok(Some(FirstRecord {
                    head: RecordHead::Trunk,
                    len: FRONT_LEN + n,
                }));
            }
            Ok(DeviceRead::NoneNow) => match incoming.command() {
                Some(head) => return Ok(Some(client_record(head))),
                None => incoming.wait(),
            },
            Ok(DeviceRead::Ended) => return Ok(None),
            Err(_) => return Err(SourceFault),
        }
    }
    Err(SourceFault)
}

impl<I: TrunkInput> TrunkRecordSource<I> {
    /// The records of what comes from now on, with no read yet.
    pub fn new(incoming: I) -> TrunkRecordSource<I>
        requires came { I.came incoming ≡ [] }
        requires asked { I.asked incoming ≡ [] }
        ensures incoming { result.incoming ≡ incoming }
        ensures failed { result.failed ≡ 0 }
        ensures reads { result.reads ≡ 0 }
        ensures log { result.log.octets ≡ [] }
    {
        TrunkRecordSource {
            incoming,
            turn: false,
            failed: 0,
            reads: 0,
            log: Log::new(),
        }
    }

    /// The next record, with the octets of the trunk at the front of `room`; None at the end of the trunk.
    pub fn next(&mut self, room: &mut [u8; ROOM_LEN]) -> Result<Option<FirstRecord>, SourceFault>
        ensures gives { LogsFirst self.old.log.octets self.new.log.octets result room.new }
        ensures len { length room.new ≡ most_octets }
        ensures counts { CountsRead self.old.failed self.new.failed result }
        ensures turns { CountsTurn self.old.reads self.new.reads result }
        ensures ended { IfOk result (λ got. IfNone got (I.has_ended self.new.incoming)) }
        ensures fails { OnErr result (LacksRecord (I.has_failed self.new.incoming)
            (2 ^ 63 ≤ I.waits self.new.incoming)) }
        ensures told { I.told self.new.incoming ≡ I.told self.old.incoming }
    {
        match next_record(&mut self.incoming, &mut self.turn, room) {
            Ok(got) => {
                log_first(&mut self.log, &got, room);
                self.reads = self.reads.saturating_add(1);
                Ok(got)
            }
            Err(fault) => {
                self.failed = self.failed.saturating_add(1);
                Err(fault)
            }
        }
    }

    /// Counts a failure, with which a session ends.
    pub fn fail(&mut self)
        ensures failed { CanCount self.old.failed → self.old.failed < self.new.failed }
        ensures incoming { self.new.incoming ≡ self.old.incoming }
        ensures reads { self.new.reads ≡ self.old.reads }
        ensures log { self.new.log ≡ self.old.log }
    {
        self.failed = self.failed.saturating_add(1);
    }

    /// Gives the answer to the last record of a client to this client.
    pub fn answer(&mut self, octets: &[u8])
        ensures told { I.told self.new.incoming ≡ I.told self.old.incoming ++ octets.now }
        ensures failed { self.new.failed ≡ self.old.failed }
        ensures reads { self.new.reads ≡ self.old.reads }
        ensures log { self.new.log ≡ self.old.log }
    {
        self.incoming.answer(octets);
    }

    /// What the trunk's octets and the clients' commands come from.
    pub fn into_incoming(self) -> I
        ensures { result ≡ self.incoming }
    {
        let TrunkRecordSource { incoming, .. } = self;
        incoming
    }
}
