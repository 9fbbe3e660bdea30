//! A trunk with its clients as both ends of a session (`TrunkLine`).

ghost use Rattle.std.specs.Prelude.{◌≡◌, ◌^◌, ◌≤◌, ◌⊎◌, [], length, Some, None, IfOk, IfErr, OnErr, true, false};
ghost use Rattle.gw_records.specs.Reader.{FailsToRead, ReadsOn};
ghost use Rattle.gw_records.specs.Records.{end_of};
ghost use Rattle.gw_records.specs.Streams.{CanCount};
ghost use Rattle.gw_records.specs.declared.records.FirstRecord.{FirstRecord};
ghost use Rattle.gw_trunk.specs.Bodies.{others, told_by};
ghost use Rattle.gw_trunk.specs.Pieces.{LacksRecord, held_in, holding, is_accepted, most_octets, source_told};
ghost use Rattle.gw_trunk.specs.Pieces.{stands_in_room};

use crate::device::{TrunkInput, TrunkOutput};
use crate::sink::TrunkRecordSink;
use crate::source::{ROOM_LEN, TrunkRecordSource};
use g704_cas::CircuitNo;
use gw_records::{
    AcceptedKinds, FRONT_LEN, FirstRecord, Line, MAX_READS, RecordHead, RecordsEnd, RunFault,
    code_record,
};

/// A trunk and its clients. The octets that come are T records, one at a time and never spelled, with C and K
/// records of clients between them. The octets that answer T records go to the trunk, and codes to the client
/// whose record they answer.
#[derive(Drop)]
pub struct TrunkLine<I: TrunkInput, O: TrunkOutput> {
    source: TrunkRecordSource<I>,
    // The octets of the record that is first, if they are the trunk's.
    room: [u8; ROOM_LEN],
    first: Option<FirstRecord>,
    reads_left: u64,
    sink: TrunkRecordSink<O>,
    ghost long: { length room ≡ most_octets },
    ghost stands: { (f : FirstRecord) → first ≡ Some f → stands_in_room f ≡ true },
    ghost told: { I.told source.incoming ≡ others sink.log.octets },
}

impl<I: TrunkInput, O: TrunkOutput> TrunkLine<I, O> {
    /// Of a trunk of which nothing has come and to which nothing went.
    pub fn new(incoming: I, outgoing: O) -> TrunkLine<I, O>
        requires came { I.came incoming ≡ [] }
        requires asked { I.asked incoming ≡ [] }
        requires told { I.told incoming ≡ [] }
        requires went { O.went outgoing ≡ [] }
        ensures first { (result.first ≡ None) × (result.reads_left ≡ 2 ^ 62) }
        ensures source { (result.source.failed ≡ 0) × (result.source.reads ≡ 0)
            × (result.source.log.octets ≡ []) }
        ensures sink { (result.sink.failed ≡ 0) × (result.sink.log.octets ≡ []) }
    {
        TrunkLine {
            source: TrunkRecordSource::new(incoming),
            room: [0; ROOM_LEN],
            first: None,
            reads_left: MAX_READS,
            sink: TrunkRecordSink::new(outgoing),
        }
    }
}

impl<I: TrunkInput + Drop, O: TrunkOutput + Drop> TrunkLine<I, O> {
    /// The two directions of the trunk.
    pub fn into_ends(self) -> (I, O)
        ensures incoming { result.0 ≡ self.source.incoming }
        ensures outgoing { result.1 ≡ self.sink.outgoing }
    {
        let TrunkLine { source, sink, .. } = self;
        (source.into_incoming(), sink.into_outgoing())
    }
}

// Whether records of this head are accepted.
fn is_accepted(kinds: &AcceptedKinds, head: RecordHead) -> bool
    ensures { result ≡ is_accepted kinds.now head }
{
    match head {
        RecordHead::Trunk => kinds.trunk,
        RecordHead::Datagram(_) => kinds.datagrams,
        RecordHead::Command(..) => kinds.commands,
        RecordHead::Codec(..) => kinds.codecs,
    }
}

impl<I: TrunkInput, O: TrunkOutput> Line for TrunkLine<I, O> {
    ghost input = { λ l. record {
      source = source_told l.source.failed l.source.reads l.source.log.octets;
      held = holding l.first l.room l.reads_left;
    } };

    ghost output = { λ l. record { sink = told_by l.sink.failed l.sink.log.octets; waiting = [] } };

    ghost terms = { λ _. record { late = 0; lent = (0, 0) } };

    ghost stops = { true };

    #[inline(always)]
    fn first(&self, kinds: &AcceptedKinds) -> Result<FirstRecord, RecordsEnd> {
        match self.first {
            Some(first) if is_accepted(kinds, first.head) => Ok(first),
            Some(_) => Err(RecordsEnd::BadKind),
            None => Err(RecordsEnd::End),
        }
    }

    // (The head of a client's record says all of it.)
    fn body(&self, first: &FirstRecord) -> &[u8] {
        match first.head {
            RecordHead::Command(..) | RecordHead::Codec(..) => &[],
            _ => &self.room[..first.len - FRONT_LEN],
        }
    }

    fn pass(&mut self, _first: &FirstRecord) {
        self.first = None;
    }

    fn read_on(&mut self, _kinds: &AcceptedKinds, _ending: RecordsEnd) -> Result<bool, RunFault>
        requires ends { end_of _kinds.now (held_in self.old.first self.old.room) ≡ Some _ending }
        requires reads { CanCount self.old.source.failed }
        ensures ok { IfOk result (λ came. ReadsOn
            (source_told self.old.source.failed self.old.source.reads self.old.source.log.octets)
            (source_told self.new.source.failed self.new.source.reads self.new.source.log.octets)
            (holding self.old.first self.old.room self.old.reads_left)
            (holding self.new.first self.new.room self.new.reads_left) _ending came) }
        ensures fault { IfErr result (λ e. (e ≡ RunFault.Read) × FailsToRead
            (source_told self.old.source.failed self.old.source.reads self.old.source.log.octets)
            (source_told self.new.source.failed self.new.source.reads self.new.source.log.octets)
            (holding self.old.first self.old.room self.old.reads_left)
            (holding self.new.first self.new.room self.new.reads_left) _ending) }
        ensures sink { self.new.sink ≡ self.old.sink }
        ensures ended { IfOk result (λ came. came ≡ false → self.old.first ≡ None
            → I.has_ended self.new.source.incoming) }
        ensures fails { OnErr result ((self.old.reads_left ≡ 0)
            ⊎ LacksRecord (I.has_failed self.new.source.incoming) (2 ^ 63 ≤ I.waits self.new.source.incoming)) }
    {
        if self.first.is_some() {
            return Ok(false);
        }
        if self.reads_left == 0 {
            return Err(RunFault::Read);
        }
        self.reads_left -= 1;
        match self.source.next(&mut self.room) {
            Ok(got) => {
                self.first = got;
                Ok(got.is_some())
            }
            Err(_) => Err(RunFault::Read),
        }
    }

    fn stop(&mut self, ending: RecordsEnd) -> Result<(), RunFault> {
        if ending != RecordsEnd::End {
            return Ok(());
        }
        self.source.fail();
        Err(RunFault::Read)
    }

    fn put_octets(&mut self, octets: &[u8]) -> Result<(), RunFault> {
        self.sink.put_octets(octets)
    }

    fn put_code(&mut self, circuit: CircuitNo, kind: u8, code: u8) -> Result<(), RunFault> {
        let octets = code_record(circuit, kind, code);
        self.sink.put_code(&octets)?;
        self.source.answer(&octets);
        Ok(())
    }

    fn write_out(&mut self) -> Result<(), RunFault> {
        Ok(())
    }
}
