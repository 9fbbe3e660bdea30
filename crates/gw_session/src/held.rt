//! The packets of a record of the trunk that are held until it is on the tape (`HeldPackets`).
ghost use Rattle.std.specs.Prelude.{◌≡◌, ◌∷◌, ◌++◌, ◌<◌, [], length, vec_capacity, true, false};
ghost use Rattle.std.specs.Prelude.{◌&&◌, nat_le, IfOk, OnOk, OnErr};
ghost use Rattle.gw_records.specs.Streams.{CanCount, Puts};
ghost use Rattle.gw_records.specs.Streams.{TakesAllButWaiting};
ghost use Rattle.gw_session.specs.Exchange.{IsSilent, GoToPorts, packets_held};

use crate::packet_ports::PacketPorts;
use g704_cas::CircuitNo;
use gw_circuit::Datagram;
use gw_records::{Line, RunFault, Totals};
use std::alloc::{AllocError, Global};

// The octets of the longest record whose packets are held: as many as a trunk's have at most. Each octet
// sends one packet at most.
const MOST_OCTETS: usize = 2_048;

/// A packet of a circuit that is held.
#[derive(Drop)]
pub struct HeldPacket {
    pub(crate) circuit: CircuitNo,
    pub(crate) octets: Datagram,
}

/// The packets that a session holds, in their order. Their memory is taken once, and used as it is needed.
#[derive(Drop)]
pub struct HeldPackets {
    pub(crate) packets: Vec<HeldPacket>,
    /// Whether the session holds packets at all.
    pub(crate) holds: bool,
    ghost memory: { holds ≡ true → vec_capacity packets ≡ 2048 },
}

impl HeldPackets {
    /// Of a session that sends its packets at once.
    pub fn none(alloc: Global) -> HeldPackets
        ensures { result.holds ≡ false }
    {
        HeldPackets {
            packets: Vec::new(alloc),
            holds: false,
        }
    }

    /// Takes the memory.
    pub fn new(alloc: Global) -> Result<HeldPackets, AllocError>
        ensures { IfOk result (λ held. held.holds ≡ true) }
    {
        Ok(HeldPackets {
            packets: Vec::with_capacity(alloc, MOST_OCTETS)?,
            holds: true,
        })
    }

    /// Forgets all packets, and returns whether those of a record of this many octets are held.
    pub fn begin(&mut self, len: usize) -> bool
        ensures holding { result ≡ (self.old.holds && nat_le len 2048) }
        ensures empty { self.new.packets.items ≡ [] }
        ensures holds { self.new.holds ≡ self.old.holds }
    {
        self.packets.clear();
        self.holds && len <= MOST_OCTETS
    }

    /// Holds a packet behind the others.
    #[inline(never)]
    pub fn push(&mut self, circuit: CircuitNo, packet: &Datagram)
        requires { length self.old.packets.items < vec_capacity self.old.packets }
        ensures packets { packets_held self.new.packets.items
            ≡ packets_held self.old.packets.items ++ (circuit, packet.now.items) ∷ [] }
        ensures holds { self.new.holds ≡ self.old.holds }
        ensures memory { vec_capacity self.new.packets ≡ vec_capacity self.old.packets }
    {
        let mut octets = Datagram::new();
        let _ = octets.try_extend_from_slice(packet.as_slice());
        self.packets.push_reserved(HeldPacket { circuit, octets });
    }
}

/// Sends a packet of a circuit, and counts it, or that it did not go out.
pub fn send_packet<O: PacketPorts<L>, L: Line>(
    circuit: CircuitNo,
    packet: &Datagram,
    packet_ports: &mut O,
    totals: &mut Totals,
    line: &mut L,
) -> Result<(), RunFault>
    requires writes { CanCount (L.output line.old).sink.failures }
    ensures sends { OnOk result (GoToPorts (O.tells packet_ports.old) (O.tells packet_ports.new) totals.old
        totals.new ((circuit, packet.now.items) ∷ [])) }
    ensures puts { Puts (L.output line.old).sink (L.output line.new).sink (L.output line.new).waiting
        ((L.output line.old).waiting ++ O.spells (circuit, packet.now.items)) result }
    ensures input { L.input line.new ≡ L.input line.old }
    ensures terms { L.terms line.new ≡ L.terms line.old }
    ensures kept { OnErr result (O.tells packet_ports.new ≡ O.tells packet_ports.old) }
    ensures some { OnErr result (0 < length (O.spells (circuit, packet.now.items))) }
{
    if packet_ports.send_datagram(circuit, packet.as_slice(), line)? {
        totals.datagrams = totals.datagrams.saturating_add(1);
    } else {
        totals.port_faults = totals.port_faults.saturating_add(1);
    }
    Ok(())
}

/// Sends the packets that are held.
pub fn send_held<O: PacketPorts<L>, L: Line>(
    held: &[HeldPacket],
    packet_ports: &mut O,
    totals: &mut Totals,
    line: &mut L,
)
    requires writes { CanCount (L.output line.old).sink.failures }
    requires silent { 0 < length held.now → IsSilent O.spells }
    ensures sends { GoToPorts (O.tells packet_ports.old) (O.tells packet_ports.new) totals.old totals.new
        (packets_held held.now) }
    ensures passes { TakesAllButWaiting (L.output line.old).sink.taken (L.output line.new).sink.taken
        (L.output line.new).waiting (L.output line.old).waiting }
    ensures no_failure { (L.output line.new).sink.failures ≡ (L.output line.old).sink.failures }
    ensures input { L.input line.new ≡ L.input line.old }
    ensures terms { L.terms line.new ≡ L.terms line.old }
{
    for i in 0..held.len() {
        let packet = &held[i];
        // (No write of it fails, since it puts nothing in front of the answer.)
        let _ = send_packet(packet.circuit, &packet.octets, packet_ports, totals, line);
    }
}
