//! A slot of the SAToP jitter buffer, with the octets of a packet or nothing (`PacketSlot`).

ghost use Rattle.std.specs.Prelude.{◌≡◌, ◌≤◌, ℕ, length, None, Some, is_some, IfOk, vec_capacity};
ghost use Rattle.satop_playout.specs.Plays.{octets_or_fill};
ghost use Rattle.satop_playout.specs.Standing.{packet_in, packet_of};

use crate::MAX_SIZE;
use std::alloc::{AllocError, Global};

// The octets of a packet, if one is held.
#[derive(Clone, Copy)]
pub(crate) struct PacketSlot {
    held: bool,
    octets: [u8; MAX_SIZE],
}

impl PacketSlot {
    // A slot that holds nothing.
    pub(crate) fn empty() -> PacketSlot
        ensures { (size : ℕ) → packet_in size result ≡ None }
    {
        PacketSlot {
            held: false,
            octets: [0; MAX_SIZE],
        }
    }

    // Whether a packet is held.
    pub(crate) fn is_held(&self) -> bool
        ensures { (size : ℕ) → result ≡ is_some (packet_in size self.now) }
    {
        self.held
    }

    // Forgets the packet in the slot.
    pub(crate) fn clear(&mut self)
        ensures { (size : ℕ) → packet_in size self.new ≡ None }
    {
        self.held = false;
    }

    // Holds the octets of a packet in the slot.
    pub(crate) fn put(&mut self, octets: &[u8])
        requires { length octets.now ≤ 1280 }
        ensures { packet_in (length octets.now) self.new ≡ Some octets.now }
    {
        self.held = true;
        self.octets[..octets.len()].copy_from_slice(octets);
    }

    // Gives the packet's octets if one is held, and says whether it was. Then nothing is held.
    pub(crate) fn take(&mut self, room: &mut [u8]) -> bool
        requires { length room.old ≤ 1280 }
        ensures there { result ≡ is_some (packet_in (length room.old) self.old) }
        ensures octets { room.new ≡ octets_or_fill (packet_in (length room.old) self.old) room.old }
        ensures empty { (size : ℕ) → packet_in size self.new ≡ None }
    {
        if !self.held {
            return false;
        }
        self.held = false;
        room.copy_from_slice(&self.octets[..room.len()]);
        true
    }
}

// As many slots that hold nothing, in memory for just these.
pub(crate) fn empty_slots(alloc: Global, count: usize) -> Result<Vec<PacketSlot>, AllocError>
    ensures many { IfOk result (λ slots. length slots.items ≡ count) }
    ensures empty { IfOk result (λ slots. (size p : ℕ) → packet_of size slots.items p ≡ None) }
    ensures memory { IfOk result (λ slots. vec_capacity slots ≡ count) }
{
    let mut slots = Vec::with_capacity(alloc, count)?;
    for _ in 0..count {
        slots.push_reserved(PacketSlot::empty());
    }
    Ok(slots)
}
