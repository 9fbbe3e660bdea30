//! Laws of SAToP packets: one reading for each, the first fault, and what is written is read.

ghost use Rattle.satop_packet.specs.Laws.{FaultlessIsPacket, PacketIsFaultless, PartsAreUnique};
ghost use Rattle.satop_packet.specs.Laws.{LeastFaultIsTold, PlainIsPacket, PlainIsRead};

/// Octets are the join of some parts exactly if they have no fault.
pub fn faultless_octets_are_packets()
    ensures packet { FaultlessIsPacket }
    ensures faultless { PacketIsFaultless }
{}

/// Octets are the join of at most one record of parts.
pub fn parts_are_unique()
    ensures { PartsAreUnique }
{}

/// The fault returned is the one with the least number among those that hold.
#[tactic(auto, using(crate::proofs::Callers::least_fault_is_told))]
pub fn the_least_fault_is_told()
    ensures { LeastFaultIsTold }
{}

/// A packet of `write` is read as the header, the control word and the payload that it was given.
pub fn plain_packets_are_read()
    ensures packet { PlainIsPacket }
    ensures read { PlainIsRead }
{}
