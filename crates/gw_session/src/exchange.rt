//! What a session does for each octet of the trunk: datagrams received, packets sent.
ghost use Rattle.std.specs.Prelude.{◌≡◌, ◌∷◌, List, [], Some};
ghost use Rattle.gw_circuit.specs.Items.{Datagram};
ghost use Rattle.gw_switch.specs.declared.GatewayConfig.{GatewayConfig};
ghost use Rattle.gw_switch.specs.Events.{Event};
ghost use Rattle.gw_switch.specs.Whole.{reply_to};
ghost use Rattle.gw_switch.specs.Standing.{HasHistory};
ghost use Rattle.gw_session.specs.Answers.{code_of};
ghost use Rattle.gw_session.specs.Exchange.{AreShown, IsGiven};

use crate::held::{HeldPackets, send_held, send_packet};
use crate::observers::Observers;
use crate::packet_ports::PacketPorts;
use crate::receive_room::ReceiveRoom;
use crate::tape::{Batch, Tape, batch_arrival, record_octets};
use crate::watch::Watch;
use arrayvec::ArrayVec;
use g704_cas::CircuitNo;
use gw_circuit::Datagram;
use gw_records::{FirstRecord, Line, NO_TOTALS, RecordHead, RunFault, Totals};
use gw_switch::Gateway;

// How many datagrams are received before one octet.
const MOST_DATAGRAMS: usize = 4;

// Gives a datagram to its circuit, counts it where it is refused, and returns 0 or the number of the
// refusal.
fn give_datagram(
    gateway: &mut Gateway,
    circuit: CircuitNo,
    octets: &[u8],
    totals: &mut Totals,
) -> u8
    ensures given { IsGiven gateway.old gateway.new totals.old totals.new ((circuit, octets.now) ∷ []) }
    ensures others { totals.new ≡ record totals.old { dropped = totals.new.dropped } }
    ensures code { (config : GatewayConfig) (before : List Event) → HasHistory config gateway.old before
        → result ≡ code_of (reply_to config before (Event.Given circuit (Datagram octets.now))) }
{
    match gateway.datagram(circuit, octets) {
        Ok(()) => 0,
        Err(dropped) => {
            totals.dropped = totals.dropped.saturating_add(1);
            dropped.code()
        }
    }
}

/// Gives a datagram to its circuit when this many octets of the record are heard, counts it where it is
/// refused, shows it to the watch, and returns 0 or the number of the refusal.
pub fn give_shown<W: Watch>(
    gateway: &mut Gateway,
    heard: usize,
    circuit: CircuitNo,
    octets: &[u8],
    totals: &mut Totals,
    watch: &mut W,
) -> u8
    ensures given { IsGiven gateway.old gateway.new totals.old totals.new ((circuit, octets.now) ∷ []) }
    ensures others { totals.new ≡ record totals.old { dropped = totals.new.dropped } }
    ensures code { (config : GatewayConfig) (before : List Event) → HasHistory config gateway.old before
        → result ≡ code_of (reply_to config before (Event.Given circuit (Datagram octets.now))) }
    ensures shown { AreShown W.shows gateway.old watch.old watch.new heard
        (Event.Given circuit (Datagram octets.now) ∷ []) }
{
    let code = give_datagram(gateway, circuit, octets, totals);
    watch.datagram(heard, circuit, octets, code);
    code
}

/// What a session has done, and where it receives and makes what it sends.
#[derive(Drop)]
pub struct SessionBuffers {
    pub totals: Totals,
    /// The octets that answer a record of the trunk, so far.
    pub answer: ArrayVec<u8, 65_535>,
    /// 0, or the number of the refusal that the last record was answered with.
    pub code: u8,
    // The packet of the last octet, if it had one.
    datagram: Datagram,
    held: HeldPackets,
    // Whether the packets of the record that is acted on are held.
    holding: bool,
    // How many of the octets that are exchanged are recorded or in the batch.
    recorded: usize,
    // What the tape is still to take of the record that is acted on.
    batch: Batch,
    room: ReceiveRoom,
}

impl SessionBuffers {
    ghost use Rattle.std.specs.Prelude.{◌≡◌, ◌+◌, ◌<◌, ◌≤◌, ◌^◌, ◌∷◌, ◌++◌, [], length, take, drop, map, true};
    ghost use Rattle.std.specs.Prelude.{◌&&◌, nat_le, vec_capacity, IfSome};
    ghost use Rattle.gw_records.specs.Outcome.{nothing_counted};
    ghost use Rattle.gw_records.specs.Ports.{KeepsSends};
    ghost use Rattle.gw_records.specs.Records.{IsFirst, longest_body};
    ghost use Rattle.gw_records.specs.Streams.{CanCount, Puts};
    ghost use Rattle.gw_records.specs.declared.records.AcceptedKinds.{AcceptedKinds};
    ghost use Rattle.gw_session.specs.Exchange.{ComesInTurn, ExchangingAll, HearsOctet, IsSilent, body_of};
    ghost use Rattle.gw_session.specs.Exchange.{packets_held};
    ghost use Rattle.gw_session.specs.Hearing.{HearsAll, HearsOn};
    ghost use Rattle.gw_session.specs.Tape.{Batches, taping};
    ghost use Rattle.gw_session.specs.World.{state_with, world_in, world_with};

    /// Before the first record.
    pub fn new(room: ReceiveRoom, held: HeldPackets) -> SessionBuffers
        ensures totals { result.totals ≡ nothing_counted }
        ensures held { result.held ≡ held }
    {
        SessionBuffers {
            totals: NO_TOTALS,
            answer: ArrayVec::new(),
            code: 0,
            datagram: Datagram::new(),
            held,
            holding: false,
            recorded: 0,
            batch: Batch::new(),
            room,
        }
    }

    // Begins a record of this many octets of the trunk, before which the ports look for datagrams.
    fn begin_record<O: PacketPorts<L>, L: Line>(
        &mut self,
        gateway: &Gateway,
        packet_ports: &mut O,
        len: usize,
    )
        ensures tells { O.tells packet_ports.new ≡ O.tells packet_ports.old }
        ensures holding { self.new.holding ≡ (self.old.held.holds && nat_le len 2048) }
        ensures empty { self.new.held.packets.items ≡ [] }
        ensures holds { self.new.held.holds ≡ self.old.held.holds }
        ensures batch { self.new.batch.items ≡ [] }
        ensures answer { self.new.answer.items ≡ [] }
        ensures others { self.new ≡ record self.old {
          answer = self.new.answer;
          recorded = 0;
          batch = self.new.batch;
          holding = self.new.holding;
          held = self.new.held;
        } }
    {
        self.answer.clear();
        self.recorded = 0;
        self.batch.clear();
        self.holding = self.held.begin(len);
        packet_ports.look_for_datagrams(gateway);
    }

    // Gives an octet to the gateway, and puts the one to send behind those of the answer. The packet that goes
    // with it is held, or its circuit is returned, if packets are not held. (It is inlined, so that an octet saves no
    // registers for it.)
    #[inline(always)]
    fn hear_octet(&mut self, gateway: &mut Gateway, octet: u8) -> Option<CircuitNo>
        requires fits { length self.old.answer.items < longest_body }
        requires room { self.old.holding ≡ true
            → length self.old.held.packets.items < vec_capacity self.old.held.packets }
        ensures hears { HearsOctet self.old.holding gateway.old gateway.new
            (packets_held self.old.held.packets.items) (packets_held self.new.held.packets.items)
            self.old.answer.items self.new.answer.items octet self.new.datagram.items result }
        ensures memory { vec_capacity self.new.held.packets ≡ vec_capacity self.old.held.packets }
        ensures holds { self.new.held.holds ≡ self.old.held.holds }
        ensures others { self.new ≡ record self.old {
          answer = self.new.answer;
          datagram = self.new.datagram;
          held = self.new.held;
        } }
    {
        let out = gateway.octet_into(octet, &mut self.datagram);
        self.answer.push(out.octet);
        let circuit = out.circuit?;
        if !self.holding {
            return Some(circuit);
        }
        self.held.push(circuit, &self.datagram);
        None
    }

    // Puts the datagram of `n` octets that stands in the room into the batch, behind the octets that were heard,
    // gives it to the gateway and shows it to the watch. Returns 0 or the number of the refusal. (It is apart, so
    // that an octet with which none comes saves no registers for it.)
    #[inline(never)]
    fn take_datagram<T: Tape, W: Watch>(
        &mut self,
        gateway: &mut Gateway,
        circuit: CircuitNo,
        n: usize,
        heard: &[u8],
        observers: &mut Observers<T, W>,
    ) -> u8
        requires short { length heard.now < 2 ^ 16 }
        requires within { self.old.recorded ≤ length heard.now }
        requires fits { n ≤ length self.old.room.octets.value }
        ensures batches { Batches (taping (T.tells observers.old.tape) self.old.batch.items)
            (taping (T.tells observers.new.tape) self.new.batch.items)
            (map Event.Octet (drop self.old.recorded heard.now)
            ++ Event.Given circuit (Datagram (take n self.old.room.octets.value)) ∷ []) }
        ensures given { IsGiven gateway.old gateway.new self.old.totals self.new.totals
            ((circuit, take n self.old.room.octets.value) ∷ []) }
        ensures dropped { self.new.totals
            ≡ record self.old.totals { dropped = self.new.totals.dropped } }
        ensures shown { AreShown W.shows gateway.old observers.old.watch observers.new.watch
            (length heard.now) (Event.Given circuit (Datagram (take n self.old.room.octets.value)) ∷ []) }
        ensures others { self.new ≡ record self.old {
          totals = self.new.totals;
          recorded = length heard.now;
          batch = self.new.batch;
        } }
    {
        let room = &self.room;
        let octets = &room.octets[..n];
        let fresh = &heard[self.recorded..];
        batch_arrival(&mut observers.tape, &mut self.batch, fresh, circuit, octets);
        self.recorded = heard.len();
        let watch = &mut observers.watch;
        give_shown(
            gateway,
            heard.len(),
            circuit,
            octets,
            &mut self.totals,
            watch,
        )
    }

    // Receives the datagrams that wait at the circuit whose slot the next octet sends, four at most, puts
    // them into the batch behind the octets that were heard, gives them to the gateway and shows them to the
    // watch. (It is inlined, since mostly nothing waits: then an octet saves no registers for it.)
    #[inline(always)]
    fn receive_datagrams<O: PacketPorts<L>, L: Line, T: Tape, W: Watch>(
        &mut self,
        gateway: &mut Gateway,
        packet_ports: &mut O,
        heard: &[u8],
        observers: &mut Observers<T, W>,
    )
        requires short { length heard.now < 2 ^ 16 }
        requires within { self.old.recorded ≤ length heard.now }
        ensures comes { ComesInTurn
            (AreShown W.shows gateway.old observers.old.watch observers.new.watch (length heard.now))
            (state_with self.old.held.holds (packets_held self.old.held.packets.items)
            (O.tells packet_ports.old) gateway.old self.old.totals)
            (state_with self.old.held.holds (packets_held self.old.held.packets.items)
            (O.tells packet_ports.new) gateway.new self.new.totals)
            (taping (T.tells observers.old.tape) self.old.batch.items)
            (taping (T.tells observers.new.tape) self.new.batch.items)
            heard.now self.old.recorded self.new.recorded }
        ensures others { self.new ≡ record self.old {
          totals = self.new.totals;
          recorded = self.new.recorded;
          batch = self.new.batch;
          room = self.new.room;
        } }
    {
        let Some(circuit) = gateway.next_slot() else {
            return;
        };
        'receiving: for _turn in 0..MOST_DATAGRAMS {
            match packet_ports.receive_datagram(circuit, self.room.octets.as_mut_slice()) {
                Ok(Some(n)) => {
                    let code = self.take_datagram(gateway, circuit, n, heard, observers);
                    packet_ports.judge_datagram(circuit, code == 0);
                }
                Ok(None) => return,
                Err(_) => {
                    self.totals.port_faults = self.totals.port_faults.saturating_add(1);
                    return;
                }
            }
        }
    }

    // Hears the octets of a record behind those that were heard, each after the datagrams that wait at the
    // circuit whose slot is sent with it, up to the first one whose packet is to be sent before the next is
    // heard: its circuit is returned. Nothing is sent or written, but for what a full batch records.
    #[inline(never)]
    fn hear<O: PacketPorts<L>, L: Line, T: Tape, W: Watch>(
        &mut self,
        gateway: &mut Gateway,
        packet_ports: &mut O,
        octets: &[u8],
        observers: &mut Observers<T, W>,
    ) -> Option<CircuitNo>
        requires short { length octets.now < 2 ^ 16 }
        requires heard { length self.old.answer.items ≤ length octets.now }
        requires within { self.old.recorded ≤ length self.old.answer.items }
        requires holds { self.old.holding ≡ true → (self.old.held.holds ≡ true) × (length octets.now ≤ 2048) }
        requires room { self.old.holding ≡ true
            → length self.old.held.packets.items ≤ length self.old.answer.items }
        requires silent { self.old.holding ≡ true → IsSilent O.spells }
        ensures hears { HearsOn W.shows observers.old.watch observers.new.watch self.old.holding O.spells
            (state_with self.old.held.holds (packets_held self.old.held.packets.items)
            (O.tells packet_ports.old) gateway.old self.old.totals)
            (state_with self.old.held.holds (packets_held self.new.held.packets.items)
            (O.tells packet_ports.new) gateway.new self.new.totals)
            (taping (T.tells observers.old.tape) self.old.batch.items)
            (taping (T.tells observers.new.tape) self.new.batch.items)
            octets.now self.old.recorded self.new.recorded self.old.answer.items self.new.answer.items
            self.new.datagram.items result }
        ensures onward { IfSome result (λ _. length self.old.answer.items < length self.new.answer.items) }
        ensures within { length self.new.answer.items ≤ length octets.now }
        ensures no_sends { KeepsSends (O.tells packet_ports.old) (O.tells packet_ports.new) }
        ensures holding { self.new.holding ≡ self.old.holding }
        ensures holds { self.new.held.holds ≡ self.old.held.holds }
    {
        for i in self.answer.len()..octets.len() {
            let heard = &octets[..i];
            self.receive_datagrams::<O, L, T, W>(gateway, packet_ports, heard, observers);
            if let Some(circuit) = self.hear_octet(gateway, octets[i]) {
                return Some(circuit);
            }
        }
        None
    }

    // Hears all octets of a record that was begun. A packet that is not held is sent before the next octet is
    // heard.
    fn hear_all<O: PacketPorts<L>, L: Line, T: Tape, W: Watch>(
        &mut self,
        gateway: &mut Gateway,
        packet_ports: &mut O,
        first: &FirstRecord,
        line: &mut L,
        observers: &mut Observers<T, W>,
    ) -> Result<(), RunFault>
        requires first { (kinds : AcceptedKinds) × IsFirst kinds first.now (L.input line.old).held.octets }
        requires trunk { first.now.head ≡ RecordHead.Trunk }
        requires writes { CanCount (L.output line.old).sink.failures }
        requires silent { self.old.held.holds ≡ true → IsSilent O.spells }
        requires unheard { (self.old.answer.items ≡ []) × (self.old.recorded ≡ 0) }
        requires empty { (self.old.batch.items ≡ []) × (self.old.held.packets.items ≡ []) }
        requires holding { self.old.holding ≡ (self.old.held.holds
            && nat_le (length (body_of first.now (L.input line.old).held.octets)) 2048) }
        ensures hears { HearsAll W.shows observers.old.watch observers.new.watch self.old.holding O.spells
            (world_in self.old.held.holds (O.tells packet_ports.old) gateway.old self.old.totals
            (T.tells observers.old.tape) (L.output line.old))
            (world_with self.old.held.holds (packets_held self.new.held.packets.items)
            (O.tells packet_ports.new) gateway.new self.new.totals
            (T.tells observers.new.tape) (L.output line.new))
            self.new.batch.items (body_of first.now (L.input line.old).held.octets) self.new.recorded
            self.new.answer.items result }
        ensures input { L.input line.new ≡ L.input line.old }
        ensures terms { L.terms line.new ≡ L.terms line.old }
        ensures holds { self.new.held.holds ≡ self.old.held.holds }
    {
        'hearing: loop {
            let octets = line.body(first);
            let paused = self.hear::<O, L, T, W>(gateway, packet_ports, octets, observers);
            let Some(circuit) = paused else {
                return Ok(());
            };
            let packet = &self.datagram;
            send_packet(circuit, packet, packet_ports, &mut self.totals, line)?;
        }
    }

    /// Gives the octets of a record to the gateway, each after the datagrams that wait at the circuit whose
    /// slot is sent with it, and has the octets to send as the answer. The ports look for datagrams before the
    /// first octet. All are recorded when it returns, mostly in one write: the octets are cut where datagrams
    /// came. The packets of up to 2,048 octets are sent behind that, if this session holds packets.
    pub fn exchange_all<O: PacketPorts<L>, L: Line, T: Tape, W: Watch>(
        &mut self,
        gateway: &mut Gateway,
        packet_ports: &mut O,
        first: &FirstRecord,
        line: &mut L,
        observers: &mut Observers<T, W>,
    ) -> Result<(), RunFault>
        requires first { (kinds : AcceptedKinds) × IsFirst kinds first.now (L.input line.old).held.octets }
        requires trunk { first.now.head ≡ RecordHead.Trunk }
        requires writes { CanCount (L.output line.old).sink.failures }
        requires silent { self.old.held.holds ≡ true → IsSilent O.spells }
        ensures exchanges { ExchangingAll O.spells
            (AreShown W.shows gateway.old observers.old.watch observers.new.watch 0)
            (world_in self.old.held.holds (O.tells packet_ports.old) gateway.old self.old.totals
            (T.tells observers.old.tape) (L.output line.old))
            (world_in self.old.held.holds (O.tells packet_ports.new) gateway.new self.new.totals
            (T.tells observers.new.tape) (L.output line.new))
            (body_of first.now (L.input line.old).held.octets) self.new.answer.items result }
        ensures input { L.input line.new ≡ L.input line.old }
        ensures terms { L.terms line.new ≡ L.terms line.old }
        ensures holds { self.new.held.holds ≡ self.old.held.holds }
    {
        self.begin_record::<O, L>(gateway, packet_ports, line.body(first).len());
        self.hear_all(gateway, packet_ports, first, line, observers)?;
        let octets = line.body(first);
        record_octets(
            &mut observers.tape,
            &mut self.batch,
            &octets[self.recorded..],
        );
        observers.tape.before_answer::<O, L>(packet_ports, line);
        let held = &self.held;
        let packets = held.packets.as_slice();
        send_held(packets, packet_ports, &mut self.totals, line);
        Ok(())
    }
}
