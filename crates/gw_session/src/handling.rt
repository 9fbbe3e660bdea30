//! What a session does for one record of any kind, and how it is answered (`handle_record`).
ghost use Rattle.std.specs.Prelude.{◌≡◌, ◌∷◌, []};
ghost use Rattle.gw_circuit.specs.Items.{Command, Codec, Obeys, Changes};
ghost use Rattle.gw_switch.specs.Events.{Event};
ghost use Rattle.gw_switch.specs.Whole.{Reply};
ghost use Rattle.gw_session.specs.Answers.{code_of};
ghost use Rattle.gw_session.specs.Exchange.{TakesEvent};
ghost use Rattle.gw_records.specs.Ports.{Extends};
ghost use Rattle.gw_records.specs.Records.{IsGood, named};
ghost use Rattle.gw_session.specs.Answers.{events_of};
ghost use Rattle.gw_session.specs.Running.{all_kinds};
ghost use Rattle.gw_session.specs.Tape.{Recorded, answers_at, gone_to};

use crate::exchange::{SessionBuffers, give_shown};
use crate::observers::Observers;
use crate::packet_ports::PacketPorts;
use crate::tape::Tape;
use crate::watch::Watch;
use g704_cas::CircuitNo;
use g726_codec::CodecKind;
use gw_circuit::CodecFault;
use gw_records::{CODEC, COMMAND, DATAGRAM, FirstRecord, Line, RecordHead, RunFault};
use gw_switch::Gateway;
use q421_line::{Cmd, LineFault};

// 0, or the number of a fault of the line.
fn line_code(answer: Result<(), LineFault>) -> u8
    ensures { result ≡ code_of (Reply.Answered (Obeys answer)) }
{
    match answer {
        Ok(()) => 0,
        Err(fault) => fault.number(),
    }
}

// 0, or the number of a fault of the codec.
fn codec_code(answer: Result<(), CodecFault>) -> u8
    ensures { result ≡ code_of (Reply.Answered (Changes answer)) }
{
    match answer {
        Ok(()) => 0,
        Err(fault) => fault.number(),
    }
}

// Gives a command to its circuit, and returns 0 or the number of the refusal.
fn give_command(gateway: &mut Gateway, circuit: CircuitNo, command: Cmd) -> u8
    ensures { TakesEvent gateway.old gateway.new (Event.Given circuit (Command command)) result }
{
    line_code(gateway.command(circuit, command))
}

// Gives a codec to its circuit, and returns 0 or the number of the refusal.
fn give_codec(gateway: &mut Gateway, circuit: CircuitNo, codec: CodecKind, payload_type: u8) -> u8
    ensures { TakesEvent gateway.old gateway.new (Event.Given circuit (Codec codec payload_type)) result }
{
    codec_code(gateway.codec(circuit, codec, payload_type))
}

// Puts a record on the tape, which is then told that it is answered.
fn log_record<O: PacketPorts<L>, L: Line, T: Tape>(
    head: RecordHead,
    body: &[u8],
    tape: &mut T,
    ports: &O,
    line: &L,
)
    requires { IsGood all_kinds (named head body.now) }
    ensures recorded { Recorded (T.tells tape.old) (T.tells tape.new) (events_of (named head body.now)) }
    ensures told { Extends (T.tells tape.old).acts (T.tells tape.new).acts
        (answers_at (T.tells tape.new) (gone_to (O.tells ports.now) (L.output line.now).sink) ∷ []) }
{
    tape.put(head, body);
    tape.before_answer::<O, L>(ports, line);
}

impl SessionBuffers {
    ghost use Rattle.std.specs.Prelude.{◌≡◌, ◌+◌, ◌≤◌, ◌++◌, length, OnOk, true};
    ghost use Rattle.gw_records.specs.Records.{IsFirst, record_at};
    ghost use Rattle.gw_records.specs.Streams.{CanCount, Puts, at_most};
    ghost use Rattle.gw_records.specs.declared.records.AcceptedKinds.{AcceptedKinds};
    ghost use Rattle.gw_session.specs.Answers.{written_out};
    ghost use Rattle.gw_session.specs.Answers.Written.{Answered};
    ghost use Rattle.gw_session.specs.Exchange.{AreShown, Inputs, IsSilent};
    ghost use Rattle.gw_session.specs.Watch.{IsCodeAfter};
    ghost use Rattle.gw_session.specs.World.{world_in};

    // Gives the octets of a trunk record to the gateway, and puts those that answer it.
    fn handle_trunk_record<O: PacketPorts<L>, L: Line, T: Tape, W: Watch>(
        &mut self,
        gateway: &mut Gateway,
        packet_ports: &mut O,
        first: &FirstRecord,
        line: &mut L,
        observers: &mut Observers<T, W>,
    ) -> Result<(), RunFault>
        requires first { (kinds : AcceptedKinds) × IsFirst kinds first.now (L.input line.old).held.octets }
        requires trunk { first.now.head ≡ RecordHead.Trunk }
        requires writes { CanCount (L.output line.old).sink.failures }
        requires silent { self.old.held.holds ≡ true → IsSilent O.spells }
        ensures inputs { Inputs O.spells
            (AreShown W.shows gateway.old observers.old.watch observers.new.watch 0)
            (world_in self.old.held.holds (O.tells packet_ports.old) gateway.old self.old.totals
            (T.tells observers.old.tape) (L.output line.old))
            (world_in self.old.held.holds (O.tells packet_ports.new) gateway.new self.new.totals
            (T.tells observers.new.tape) (L.output line.new))
            (record_at first.now (L.input line.old).held.octets) result }
        ensures code { OnOk result (self.new.code ≡ 0) }
        ensures few { OnOk result (length (L.output line.new).waiting ≤ (L.terms line.old).late) }
        ensures input { L.input line.new ≡ L.input line.old }
        ensures terms { L.terms line.new ≡ L.terms line.old }
        ensures holds { self.new.held.holds ≡ self.old.held.holds }
    {
        self.totals.records = self.totals.records.saturating_add(1);
        let len = line.body(first).len();
        self.totals.octets = self.totals.octets.saturating_add(len as u64);
        self.exchange_all(gateway, packet_ports, first, line, observers)?;
        self.code = 0;
        line.put_octets(self.answer.as_slice())
    }

    // Counts a record, and puts the answer of its circuit.
    fn put_answer<L: Line>(
        &mut self,
        circuit: CircuitNo,
        kind: u8,
        code: u8,
        line: &mut L,
    ) -> Result<(), RunFault>
        requires writes { CanCount (L.output line.old).sink.failures }
        ensures puts { Puts (L.output line.old).sink (L.output line.new).sink (L.output line.new).waiting
            ((L.output line.old).waiting ++ written_out (Answered circuit kind code)) result }
        ensures code { self.new.code ≡ code }
        ensures counts { self.new.totals
            ≡ record self.old.totals { records = at_most (self.old.totals.records + 1) } }
        ensures few { OnOk result (length (L.output line.new).waiting ≤ (L.terms line.old).late) }
        ensures input { L.input line.new ≡ L.input line.old }
        ensures terms { L.terms line.new ≡ L.terms line.old }
        ensures holds { self.new.held.holds ≡ self.old.held.holds }
    {
        self.totals.records = self.totals.records.saturating_add(1);
        self.code = code;
        line.put_code(circuit, kind, code)
    }

    /// Gives a gateway the record that is first, and puts what answers it behind the octets that wait. It is on
    /// the tape before its answer is put; all but octets of the trunk also before the gateway is given it. The
    /// datagrams that the gateway is given are shown to the watch.
    pub fn handle_record<O: PacketPorts<L>, L: Line, T: Tape, W: Watch>(
        &mut self,
        gateway: &mut Gateway,
        packet_ports: &mut O,
        first: &FirstRecord,
        line: &mut L,
        observers: &mut Observers<T, W>,
    ) -> Result<(), RunFault>
        requires first { (kinds : AcceptedKinds) × IsFirst kinds first.now (L.input line.old).held.octets }
        requires writes { CanCount (L.output line.old).sink.failures }
        requires silent { self.old.held.holds ≡ true → IsSilent O.spells }
        ensures inputs { Inputs O.spells
            (AreShown W.shows gateway.old observers.old.watch observers.new.watch 0)
            (world_in self.old.held.holds (O.tells packet_ports.old) gateway.old self.old.totals
            (T.tells observers.old.tape) (L.output line.old))
            (world_in self.old.held.holds (O.tells packet_ports.new) gateway.new self.new.totals
            (T.tells observers.new.tape) (L.output line.new))
            (record_at first.now (L.input line.old).held.octets) result }
        ensures code { OnOk result (IsCodeAfter gateway.old (record_at first.now (L.input line.old).held.octets)
            self.new.code) }
        ensures few { OnOk result (length (L.output line.new).waiting ≤ (L.terms line.old).late) }
        ensures input { L.input line.new ≡ L.input line.old }
        ensures terms { L.terms line.new ≡ L.terms line.old }
        ensures holds { self.new.held.holds ≡ self.old.held.holds }
    {
        match first.head {
            RecordHead::Trunk => {
                self.handle_trunk_record(gateway, packet_ports, first, line, observers)
            }
            RecordHead::Datagram(circuit) => {
                let body = line.body(first);
                log_record::<O, L, T>(first.head, body, &mut observers.tape, packet_ports, line);
                let watch = &mut observers.watch;
                let code = give_shown(gateway, 0, circuit, body, &mut self.totals, watch);
                self.put_answer(circuit, DATAGRAM, code, line)
            }
            RecordHead::Command(circuit, command) => {
                let body = line.body(first);
                log_record::<O, L, T>(first.head, body, &mut observers.tape, packet_ports, line);
                let code = give_command(gateway, circuit, command);
                self.put_answer(circuit, COMMAND, code, line)
            }
            RecordHead::Codec(circuit, codec, payload_type) => {
                let body = line.body(first);
                log_record::<O, L, T>(first.head, body, &mut observers.tape, packet_ports, line);
                let code = give_codec(gateway, circuit, codec, payload_type);
                self.put_answer(circuit, CODEC, code, line)
            }
        }
    }
}
