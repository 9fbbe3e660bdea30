//! Both ends of a session as one value: what its records come from, and what answers them goes to (`Line`).
ghost use Rattle.std.specs.Prelude.{◌≡◌, ◌^◌, ◌<◌, ◌≤◌, ◌++◌, [], length, drop, Bool, IfOk, IfErr, OnOk, OnErr};
ghost use Rattle.std.specs.Prelude.{Some, false, is_ok, true};
ghost use Rattle.gw_records.specs.declared.records.AcceptedKinds.{AcceptedKinds};
ghost use Rattle.gw_records.specs.Line.{Input, Output, Terms};
ghost use Rattle.gw_records.specs.Records.{IsFirst, end_of, named, record_at};
ghost use Rattle.gw_records.specs.Records.{code_record, packet_record, trunk_record};
ghost use Rattle.gw_records.specs.Reader.{ReadsOn, FailsToRead, holds};
ghost use Rattle.gw_records.specs.Streams.{CanCount, Puts, Writes, most_waiting};

use crate::outcome::RunFault;
use crate::reader::Reader;
use crate::records::{
    AcceptedKinds, FRONT_LEN, FirstRecord, RecordsEnd, TRUNK, code_record, datagram_record,
    first_record, front_of,
};
use crate::streams::{Sink, Source};
use crate::writing::{OutputBuffer, flush, put};
use g704_cas::CircuitNo;

/// Gives a session one record after another, and takes one answer after another.
pub trait Line {
    /// What its records come from.
    ghost input: { Self → Input };

    /// What its answers go to.
    ghost output: { Self → Output };

    /// What no call changes.
    ghost terms: { Self → Terms };

    /// Whether the records can be ended before their source does.
    ghost stops: { Bool };

    /// The record that is first, or how the records end.
    fn first(&self, kinds: &AcceptedKinds) -> Result<FirstRecord, RecordsEnd>
        ensures good { IfOk result (λ f. IsFirst kinds.now f (input self.now).held.octets) }
        ensures end { IfErr result (λ e. end_of kinds.now (input self.now).held.octets ≡ Some e) };

    /// The body of the record that is first.
    fn body(&self, first: &FirstRecord) -> &[u8]
        requires { (kinds : AcceptedKinds) × IsFirst kinds first.now (input self.now).held.octets }
        ensures { named first.now.head result.now ≡ record_at first.now (input self.now).held.octets };

    /// Passes the record that is first.
    fn pass(&mut self, first: &FirstRecord)
        requires { (kinds : AcceptedKinds) × IsFirst kinds first.now (input self.old).held.octets }
        ensures octets { (input self.new).held.octets ≡ drop first.now.len (input self.old).held.octets }
        ensures turns { (input self.new).held.reads_left ≡ (input self.old).held.reads_left }
        ensures source { (input self.new).source ≡ (input self.old).source }
        ensures output { output self.new ≡ output self.old }
        ensures terms { terms self.new ≡ terms self.old };

    /// Takes more of the source if that may change how the records end, and returns whether any came.
    fn read_on(&mut self, kinds: &AcceptedKinds, ending: RecordsEnd) -> Result<bool, RunFault>
        requires ends { end_of kinds.now (input self.old).held.octets ≡ Some ending }
        requires reads { CanCount (input self.old).source.failures }
        ensures ok { IfOk result (λ came. ReadsOn (input self.old).source (input self.new).source
            (input self.old).held (input self.new).held ending came) }
        ensures fault { IfErr result (λ e. (e ≡ RunFault.Read) × FailsToRead (input self.old).source
            (input self.new).source (input self.old).held (input self.new).held ending) }
        ensures output { output self.new ≡ output self.old }
        ensures terms { terms self.new ≡ terms self.old };

    /// Ends the records before their source does, as a failed read would: the source counts a failure. Records
    /// that cannot be ended so, and those that have ended otherwise, stay as they are.
    fn stop(&mut self, _ending: RecordsEnd) -> Result<(), RunFault>
        requires reads { CanCount (input self.old).source.failures }
        ensures ok { OnOk result (input self.new ≡ input self.old) }
        ensures fault { IfErr result (λ e. (e ≡ RunFault.Read) × FailsToRead (input self.old).source
            (input self.new).source (input self.old).held (input self.new).held _ending) }
        ensures stops { stops ≡ true → _ending ≡ RecordsEnd.End → is_ok result ≡ false }
        ensures output { output self.new ≡ output self.old }
        ensures terms { terms self.new ≡ terms self.old };

    /// Puts the octets that answer a record of the trunk.
    fn put_octets(&mut self, octets: &[u8]) -> Result<(), RunFault>
        requires short { length octets.now < 2 ^ 16 }
        requires writes { CanCount (output self.old).sink.failures }
        ensures puts { Puts (output self.old).sink (output self.new).sink (output self.new).waiting
            ((output self.old).waiting ++ trunk_record octets.now) result }
        ensures few { OnOk result (length (output self.new).waiting ≤ (terms self.old).late) }
        ensures input { input self.new ≡ input self.old }
        ensures terms { terms self.new ≡ terms self.old };

    /// Puts 0 or the number of a refusal, which answers a record of this kind.
    fn put_code(&mut self, circuit: CircuitNo, kind: u8, code: u8) -> Result<(), RunFault>
        requires writes { CanCount (output self.old).sink.failures }
        ensures puts { Puts (output self.old).sink (output self.new).sink (output self.new).waiting
            ((output self.old).waiting ++ code_record circuit kind code) result }
        ensures few { OnOk result (length (output self.new).waiting ≤ (terms self.old).late) }
        ensures input { input self.new ≡ input self.old }
        ensures terms { terms self.new ≡ terms self.old };

    /// Writes what waits.
    fn write_out(&mut self) -> Result<(), RunFault>
        requires writes { CanCount (output self.old).sink.failures }
        ensures writes { Writes (output self.old).sink (output self.new).sink (output self.old).waiting result }
        ensures empty { OnOk result ((output self.new).waiting ≡ []) }
        ensures some { OnErr result (0 < length (output self.old).waiting) }
        ensures input { input self.new ≡ input self.old }
        ensures terms { terms self.new ≡ terms self.old };
}

/// When answers are written.
#[derive(Clone, Copy, Debug, PartialEq, Eq)]
pub enum AnswerTime {
    /// When they are put.
    AtOnce,
    /// Before the next read, or when the buffer is full.
    BeforeNextRead,
}

/// The records that the octets of a source spell, and a sink for the octets that spell the answers.
#[derive(Drop)]
pub struct OctetLine<'a, S, K> {
    reader: &'a mut Reader,
    source: &'a mut S,
    waiting: OutputBuffer,
    answer_time: AnswerTime,
    sink: &'a mut K,
}

impl<'a, S: Source, K: Sink> OctetLine<'a, S, K> {
    /// Before the first read and the first answer.
    pub fn new(
        reader: &'a mut Reader,
        source: &'a mut S,
        sink: &'a mut K,
        answer_time: AnswerTime,
    ) -> OctetLine<'a, S, K>
        ensures reader { result.reader.now ≡ reader.old }
        ensures source { result.source.ghost_name ≡ source.entry.ghost_name }
        ensures gives { result.source.now ≡ source.old }
        ensures sink { result.sink.ghost_name ≡ sink.entry.ghost_name }
        ensures takes { result.sink.now ≡ sink.old }
        ensures waiting { result.waiting.items ≡ [] }
        ensures answer_time { result.answer_time ≡ answer_time }
    {
        OctetLine {
            reader,
            source,
            waiting: OutputBuffer::new(),
            answer_time,
            sink,
        }
    }

    // Writes what waits, if none is to wait.
    fn write_if_at_once(&mut self) -> Result<(), RunFault>
        requires writes { CanCount (K.tells self.old.sink.now).failures }
        ensures puts { Puts (K.tells self.old.sink.now) (K.tells self.new.sink.now) self.new.waiting.items
            self.old.waiting.items result }
        ensures few { OnOk result (length self.new.waiting.items ≤ most_waiting self.old.answer_time) }
        ensures sink { self.new.sink.ghost_name ≡ self.old.sink.ghost_name }
        ensures others { self.new ≡ record self.old { waiting = self.new.waiting; sink = self.new.sink } }
    {
        if self.answer_time == AnswerTime::AtOnce {
            return flush(self.sink, &mut self.waiting);
        }
        prove!(self.waiting.len() <= self.waiting.capacity());
        Ok(())
    }

    // Puts octets behind those that wait, and writes them if none is to wait.
    fn put_behind(&mut self, octets: &[u8]) -> Result<(), RunFault>
        requires writes { CanCount (K.tells self.old.sink.now).failures }
        ensures puts { Puts (K.tells self.old.sink.now) (K.tells self.new.sink.now) self.new.waiting.items
            (self.old.waiting.items ++ octets.now) result }
        ensures few { OnOk result (length self.new.waiting.items ≤ most_waiting self.old.answer_time) }
        ensures sink { self.new.sink.ghost_name ≡ self.old.sink.ghost_name }
        ensures others { self.new ≡ record self.old { waiting = self.new.waiting; sink = self.new.sink } }
    {
        put(self.sink, &mut self.waiting, octets)?;
        self.write_if_at_once()
    }

    /// Puts a packet of a circuit.
    pub fn put_packet(&mut self, circuit: CircuitNo, packet: &[u8]) -> Result<(), RunFault>
        requires len { length packet.now ≤ 252 }
        requires writes { CanCount (K.tells self.old.sink.now).failures }
        ensures puts { Puts (K.tells self.old.sink.now) (K.tells self.new.sink.now) self.new.waiting.items
            (self.old.waiting.items ++ packet_record circuit packet.now) result }
        ensures sink { self.new.sink.ghost_name ≡ self.old.sink.ghost_name }
        ensures others { self.new ≡ record self.old { waiting = self.new.waiting; sink = self.new.sink } }
    {
        let record = datagram_record(circuit.get(), packet);
        put(self.sink, &mut self.waiting, record.as_slice())
    }
}

impl<'a, S: Source, K: Sink> Line for OctetLine<'a, S, K> {
    ghost input = { λ l. record { source = S.tells l.source.now; held = holds l.reader.now } };

    ghost output = { λ l. record { sink = K.tells l.sink.now; waiting = l.waiting.items } };

    ghost terms = { λ l. record {
      late = most_waiting l.answer_time;
      lent = (l.source.ghost_name, l.sink.ghost_name);
    } };

    ghost stops = { false };

    #[inline(always)]
    fn first(&self, kinds: &AcceptedKinds) -> Result<FirstRecord, RecordsEnd> {
        first_record(kinds, self.reader.held())
    }

    fn body(&self, first: &FirstRecord) -> &[u8] {
        &self.reader.held()[FRONT_LEN..first.len]
    }

    fn pass(&mut self, first: &FirstRecord) {
        self.reader.pass(first.len);
    }

    fn read_on(&mut self, kinds: &AcceptedKinds, ending: RecordsEnd) -> Result<bool, RunFault> {
        self.reader.read_on(kinds, ending, self.source)
    }

    fn stop(&mut self, _ending: RecordsEnd) -> Result<(), RunFault> {
        Ok(())
    }

    fn put_octets(&mut self, octets: &[u8]) -> Result<(), RunFault> {
        put(
            self.sink,
            &mut self.waiting,
            &front_of(TRUNK, 0, octets.len()),
        )?;
        self.put_behind(octets)
    }

    fn put_code(&mut self, circuit: CircuitNo, kind: u8, code: u8) -> Result<(), RunFault> {
        self.put_behind(&code_record(circuit, kind, code))
    }

    fn write_out(&mut self) -> Result<(), RunFault> {
        flush(self.sink, &mut self.waiting)
    }
}
