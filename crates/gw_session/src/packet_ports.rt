//! Where the packets of a session go, and where datagrams come from beside its records.
ghost use Rattle.std.specs.Prelude.{◌≡◌, ◌≤◌, ◌<◌, ◌++◌, length, not, IfOk, IfSome, OnErr};
ghost use Rattle.q421_line.specs.Tables.{is_open};
ghost use Rattle.gw_records.specs.Streams.{CanCount, Puts};
ghost use Rattle.gw_records.specs.Ports.{PortsState, Receives, CountsFault, KeepsSends, KeepsReceives};
ghost use Rattle.gw_session.specs.PacketPorts.{PacketOutput, silent, in_record, no_ports, Went};

use g704_cas::CircuitNo;
use gw_records::{Line, OctetLine, PortFault, Ports, RunFault, Sink, Source};
use gw_switch::Gateway;
use q421_line::State;

/// Where the packets of a session go, and where datagrams come from beside its records.
pub trait PacketPorts<L: Line> {
    /// What its ports tell.
    ghost tells: { Self → PortsState };
    /// What a packet puts in front of the answer.
    ghost spells: { PacketOutput };

    /// Learns which circuits have a datagram waiting, as [`Ports::look`] does, and which paths are closed.
    fn look_for_datagrams(&mut self, gateway: &Gateway)
        ensures { tells self.new ≡ tells self.old };

    /// Learns whether a datagram was accepted, as [`Ports::judge`] does.
    fn judge_datagram(&mut self, circuit: CircuitNo, accepted: bool)
        ensures { tells self.new ≡ tells self.old };

    /// Takes out the first datagram that waits at a circuit, as [`Ports::receive`] does.
    fn receive_datagram(
        &mut self,
        circuit: CircuitNo,
        room: &mut [u8],
    ) -> Result<Option<usize>, PortFault>
        requires { 65536 ≤ length room.old }
        ensures bound { IfOk result (λ got. IfSome got (λ n. n ≤ length room.new)) }
        ensures receives { Receives (tells self.old) (tells self.new) circuit result room.new }
        ensures counts { CountsFault (tells self.old).receive_failures (tells self.new).receive_failures
            result }
        ensures sends_stay { KeepsSends (tells self.old) (tells self.new) };

    /// Sends a packet of a circuit, and returns whether it went out. What it puts comes behind the octets
    /// that wait.
    fn send_datagram(
        &mut self,
        circuit: CircuitNo,
        packet: &[u8],
        line: &mut L,
    ) -> Result<bool, RunFault>
        requires len { length packet.now ≤ 252 }
        requires writes { CanCount (L.output line.old).sink.failures }
        ensures puts { Puts (L.output line.old).sink (L.output line.new).sink (L.output line.new).waiting
            ((L.output line.old).waiting ++ spells (circuit, packet.now)) result }
        ensures input { L.input line.new ≡ L.input line.old }
        ensures terms { L.terms line.new ≡ L.terms line.old }
        ensures went { IfOk result (λ went. Went (tells self.old) (tells self.new) circuit went packet.now) }
        ensures receives_stay { KeepsReceives (tells self.old) (tells self.new) }
        ensures kept { OnErr result (tells self.new ≡ tells self.old) }
        ensures some { OnErr result (0 < length (spells (circuit, packet.now))) };
}

/// Packets go out as records in front of the answer, and datagrams come as records alone.
#[derive(Drop)]
pub struct InRecords;

impl<'a, S: Source, K: Sink> PacketPorts<OctetLine<'a, S, K>> for InRecords {
    ghost tells = { λ s. no_ports };

    ghost spells = { in_record };

    #[inline(always)]
    fn look_for_datagrams(&mut self, _gateway: &Gateway) {}

    #[inline(always)]
    fn judge_datagram(&mut self, _circuit: CircuitNo, _accepted: bool) {}

    #[inline(always)]
    fn receive_datagram(
        &mut self,
        _circuit: CircuitNo,
        _room: &mut [u8],
    ) -> Result<Option<usize>, PortFault> {
        Ok(None)
    }

    // (It is apart from the octets that no packet goes with, since the record is a large local.)
    #[inline(never)]
    fn send_datagram(
        &mut self,
        circuit: CircuitNo,
        packet: &[u8],
        line: &mut OctetLine<'a, S, K>,
    ) -> Result<bool, RunFault> {
        line.put_packet(circuit, packet)?;
        Ok(true)
    }
}

// Whether the path of a circuit is closed when its line is in this state.
#[tactic(auto, unfolding(q421_line::specs::Tables::is_open))]
fn is_closed(state: State) -> bool
    ensures { result ≡ not (is_open state) }
{
    !matches!(state, State::Acked | State::Answered | State::ClearedBack)
}

// Tells ports which paths are closed.
fn close_paths<P: Ports>(ports: &mut P, gateway: &Gateway)
    ensures { P.tells ports.new ≡ P.tells ports.old }
{
    for number in 1..=30u8 {
        if let Some(circuit) = CircuitNo::new(number) {
            if is_closed(gateway.status(circuit).state) {
                ports.close(circuit);
            }
        }
    }
}

impl<P: Ports, L: Line> PacketPorts<L> for P {
    ghost tells = { P.tells };

    ghost spells = { silent };

    fn look_for_datagrams(&mut self, gateway: &Gateway) {
        self.look();
        if self.follows_calls() {
            close_paths(self, gateway);
        }
    }

    fn judge_datagram(&mut self, circuit: CircuitNo, accepted: bool) {
        self.judge(circuit, accepted);
    }

    fn receive_datagram(
        &mut self,
        circuit: CircuitNo,
        room: &mut [u8],
    ) -> Result<Option<usize>, PortFault> {
        self.receive(circuit, room)
    }

    fn send_datagram(
        &mut self,
        circuit: CircuitNo,
        packet: &[u8],
        _line: &mut L,
    ) -> Result<bool, RunFault> {
        Ok(self.send(circuit, packet).is_ok())
    }
}
