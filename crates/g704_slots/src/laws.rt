//! Laws of slot 16 in octets of slots 1 to 31.

ghost use Rattle.g704_framing.specs.Laws.{IsFraming};
ghost use Rattle.g704_slots.specs.Loss.{slot_16};
ghost use Rattle.g704_slots.specs.Shown.{SlotsAreInPlace};

/// Slot 16 is found and lost as the laws of g704_framing have it, so later octets change no age.
pub fn slot_16_is_framing()
    ensures { IsFraming slot_16 }
{}

/// Each octet is returned in the slot in which it came, counted from slot 16.
pub fn slots_are_in_place()
    ensures { SlotsAreInPlace }
{}
