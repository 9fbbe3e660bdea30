//! The 32 slots of a trunk, from the 31 that its device has (`SlotReceiver`).

ghost use Rattle.std.specs.Prelude.{◌≡◌, ◌≢◌, ◌+◌, ◌*◌, ◌%◌, ◌<◌, ◌≤◌, ◌++◌, ◌∷◌, ℕ, List, [], length};
ghost use Rattle.std.specs.Prelude.{is_some, MatchOption, ⊤};
ghost use Rattle.e1_g711.specs.declared.Law.{Law};
ghost use Rattle.trunk_filters.specs.Frames.{late_from, slot_0};
ghost use Rattle.trunk_filters.specs.Receiving.{HasMadeWhole, begun_by, longest_made, longest_read};

use arrayvec::ArrayVec;
use e1_g711::{Law, idle};
use g704_slots::SlotMover;

// Slot 0 with the frame alignment signal, and without: all spare bits are one.
const SIGNAL: u8 = 0x9b;

const NO_SIGNAL: u8 = 0xdf;

// The octets of a frame, and of two.
const FRAME: u8 = 32;

const TWO_FRAMES: u8 = 64;

// Makes the 32 slots of a trunk of the 31 that its device has: slot 0 of each frame, and each octet in its
// slot, or silence while slot 16 is not found.
#[derive(Drop)]
pub(crate) struct SlotReceiver {
    mover: SlotMover,
    // The place of the next octet in two frames.
    place: u8,
}

impl SlotReceiver {
    // A receiver of a trunk of this law before its first octet, which is at this place in a multiframe.
    pub(crate) fn new(law: Law, place: u16) -> SlotReceiver
        requires { place < 512 }
        ensures { HasMadeWhole result law place [] [] }
    {
        SlotReceiver {
            mover: SlotMover::new(idle(law), ((place % 32) as u8).saturating_sub(1)),
            place: (place % 64) as u8,
        }
    }

    // Takes octets of the device, and puts those of the trunk behind others.
    pub(crate) fn octets(&mut self, octets: &[u8], trunk: &mut ArrayVec<u8, 2112>)
        requires few { length octets.now ≤ longest_read }
        requires none { trunk.old.items ≡ [] }
        ensures made { (law : Law) (place : ℕ) (taken made : List ℕ)
            → HasMadeWhole self.old law place taken made
            → HasMadeWhole self.new law place (taken ++ octets.now) (made ++ trunk.new.items) }
        ensures some { length octets.now ≤ length trunk.new.items }
        ensures most { 31 * length trunk.new.items ≤ 32 * length octets.now + 30 }
    {
        for octet in octets {
            self.octet(*octet, trunk);
        }
    }

    // Takes the next octet.
    fn octet(&mut self, octet: u8, trunk: &mut ArrayVec<u8, 2112>)
        requires { length trunk.old.items < 2111 }
        ensures made { (law : Law) (place : ℕ) (taken made : List ℕ)
            → HasMadeWhole self.old law place taken (made ++ trunk.old.items)
            → HasMadeWhole self.new law place (taken ++ octet ∷ []) (made ++ trunk.new.items) }
        ensures counted { 31 * length trunk.new.items + (self.new.place + 31) % 32
            ≡ 31 * length trunk.old.items + (self.old.place + 31) % 32 + 32 }
        ensures some { length trunk.old.items < length trunk.new.items }
        ensures begun { 0 < (self.new.place + 31) % 32 }
    {
        self.begin_frame(trunk);
        let _ = trunk.try_push(self.mover.octet(octet));
        self.place = next(self.place);
    }

    // Puts slot 0, if a frame begins.
    fn begin_frame(&mut self, trunk: &mut ArrayVec<u8, 2112>)
        requires { length trunk.old.items < longest_made }
        ensures mover { self.new.mover ≡ self.old.mover }
        ensures begun { trunk.new.items ≡ trunk.old.items ++ begun_by self.old.place }
        ensures place { self.new.place % 64 ≡ (self.old.place + length (begun_by self.old.place)) % 64 }
        ensures within { self.new.place % 32 ≢ 0 }
        ensures counted { 31 * length trunk.new.items + (self.new.place + 31) % 32
            ≡ 31 * length trunk.old.items + (self.old.place + 31) % 32 }
        ensures few { length trunk.new.items ≤ length trunk.old.items + 1 }
        ensures some { length trunk.old.items ≤ length trunk.new.items }
    {
        if self.place % FRAME != 0 {
            return;
        }
        let _ = trunk.try_push(slot_0(self.place));
        self.place = next(self.place);
    }

    // By how many octets others are delayed; none while slot 16 is searched for.
    pub(crate) fn late(&self) -> Option<u8>
        ensures { (law : Law) (place : ℕ) (taken made : List ℕ) → HasMadeWhole self.now law place taken made
            → result ≡ late_from place taken }
    {
        self.mover.late()
    }
}

// The place of the next octet in two frames.
fn next(place: u8) -> u8
    ensures { result ≡ (place + 1) % 64 }
{
    (place % TWO_FRAMES + 1) % TWO_FRAMES
}

// Slot 0 at the begin of a frame at this place in two frames.
fn slot_0(place: u8) -> u8
    ensures { result ≡ slot_0 place }
{
    if place % TWO_FRAMES == 0 {
        SIGNAL
    } else {
        NO_SIGNAL
    }
}

// The receiver of a device that has slots 1 to 31 alone, if it has.
pub(crate) fn receiver_from(is_on: bool, law: Law, place: u16) -> Option<SlotReceiver>
    requires { place < 512 }
    ensures is { is_some result ≡ is_on }
    ensures begins { MatchOption result ⊤ (λ s. HasMadeWhole s law place [] []) }
{
    if is_on {
        return Some(SlotReceiver::new(law, place));
    }
    None
}
