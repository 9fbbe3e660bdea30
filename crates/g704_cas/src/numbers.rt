//! Circuit numbers (`CircuitNo`) by slot and by frame of slot 16, and ABCD bits (`Nibble`).

ghost use Rattle.std.specs.Prelude.{◌≡◌, ◌↔◌, ◌⊎◌, ◌+◌, ◌*◌, ◌/◌, ◌%◌, ◌<◌, ◌≤◌, ℕ, Some, IsSomeAnd};
ghost use Rattle.std.specs.Option.{SomeIff};
ghost use Rattle.g704_cas.specs.Numbers.{slot_of, circuit_in, IsSpeechSlot, frame_with};

use std::marker::Model;

const FIRST_CIRCUIT: u8 = 1;

const LAST_CIRCUIT: u8 = 30;

/// The time slot of signalling, between those of circuits 15 and 16 (ITU-T G.704, 5.1.3.2).
pub const SIGNALLING_SLOT: u8 = 16;

// The last of the 32 time slots of a frame.
const LAST_SLOT: u8 = 31;

// The distance of the two circuits that share an octet: the second is this many after the frame's number.
const LOW_NIBBLES: u8 = 15;

const NIBBLES: u8 = 16;

/// The number of a telephone circuit, 1 to 30 (ITU-T G.704, 5.1.3.2).
///
/// Contracts see the number.
#[derive(Clone, Copy, Debug, PartialEq, Eq)]
pub struct CircuitNo {
    number: u8,
}

impl Model for CircuitNo {
    ghost use Rattle.std.specs.Prelude.{ℕ, ◌≤◌};

    ghost Value = { ℕ };

    ghost view = { λ c. c.number };

    ghost invariant = { λ c. (1 ≤ c.number) × (c.number ≤ 30) };

    ghost inverse = { λ n. record { number = n } };
}

impl CircuitNo {
    /// The circuit with this number; `None` if it is not 1 to 30.
    pub fn new(number: u8) -> Option<CircuitNo>
        ensures { SomeIff result ((1 ≤ number) × (number ≤ 30)) number }
    {
        if number >= FIRST_CIRCUIT && number <= LAST_CIRCUIT {
            Some(CircuitNo { number })
        } else {
            None
        }
    }

    /// The circuit whose speech is in a time slot.
    ///
    /// Circuits 1 to 15 are in slots 1 to 15, circuits 16 to 30 in slots 17 to 31 (ITU-T G.704, 5.1.3.2).
    /// `None` for slot 0 (frame alignment), slot 16 (signalling), and above 31.
    pub fn in_slot(slot: u8) -> Option<CircuitNo>
        ensures reply { SomeIff result (IsSpeechSlot slot) (circuit_in slot) }
        ensures inverse { (c : ℕ) → 1 ≤ c → c ≤ 30 → (result ≡ Some c) ↔ (slot ≡ slot_of c) }
    {
        if slot == 0 || slot == SIGNALLING_SLOT || slot > LAST_SLOT {
            None
        } else if slot < SIGNALLING_SLOT {
            Some(CircuitNo { number: slot })
        } else {
            Some(CircuitNo { number: slot - 1 })
        }
    }

    /// The two circuits whose ABCD bits are in a frame's slot 16.
    ///
    /// In frame n, 1 to 15, circuit n has bits 1 to 4 and circuit n + 15 bits 5 to 8 (ITU-T G.704, 5.1.3.2).
    /// `None` for frame 0 (multiframe alignment) and above 15.
    pub fn of_frame(frame: u8) -> Option<(CircuitNo, CircuitNo)>
        ensures reply { SomeIff result ((1 ≤ frame) × (frame ≤ 15)) (frame, frame + 15) }
        ensures inverse { (c : ℕ) → 1 ≤ c → c ≤ 30
            → IsSomeAnd result (λ both. (c ≡ both.0) ⊎ (c ≡ both.1)) ↔ (frame ≡ frame_with c) }
    {
        if frame >= FIRST_CIRCUIT && frame <= LOW_NIBBLES {
            Some((
                CircuitNo { number: frame },
                CircuitNo {
                    number: frame + LOW_NIBBLES,
                },
            ))
        } else {
            None
        }
    }

    /// The number of the circuit, 1 to 30.
    pub fn get(self) -> u8
        ensures value { result ≡ self }
        ensures range { (1 ≤ self) × (self ≤ 30) }
    {
        self.number
    }

    /// The time slot of the circuit's speech.
    ///
    /// It is 1 to 15 for these circuits, 17 to 31 for circuits 16 to 30.
    pub fn slot(self) -> u8
        ensures value { result ≡ slot_of self }
        ensures range { (1 ≤ self) × (self ≤ 30) }
        ensures in_frame { result < 32 }
    {
        if self.number < SIGNALLING_SLOT {
            self.number
        } else {
            self.number + 1
        }
    }
}

/// The ABCD bits of one circuit, 0 to 15, with A on top.
///
/// Contracts see the number.
#[derive(Clone, Copy, Debug, PartialEq, Eq)]
pub struct Nibble {
    bits: u8,
}

impl Model for Nibble {
    ghost use Rattle.std.specs.Prelude.{ℕ, ◌<◌};

    ghost Value = { ℕ };

    ghost view = { λ n. n.bits };

    ghost invariant = { λ n. n.bits < 16 };

    ghost inverse = { λ n. record { bits = n } };
}

impl Nibble {
    /// The ABCD bits with this value; `None` above 15.
    pub fn new(bits: u8) -> Option<Nibble>
        ensures { SomeIff result (bits < 16) bits }
    {
        if bits < NIBBLES {
            Some(Nibble { bits })
        } else {
            None
        }
    }

    /// The ABCD bits as a number, below 16.
    pub fn get(self) -> u8
        ensures value { result ≡ self }
        ensures range { self < 16 }
    {
        self.bits
    }
}

/// The two nibbles of an octet of slot 16, bits 1 to 4 first.
pub fn nibbles(octet: u8) -> (Nibble, Nibble)
    ensures high { result.0 ≡ octet / 16 }
    ensures low { result.1 ≡ octet % 16 }
{
    (
        Nibble {
            bits: octet / NIBBLES,
        },
        Nibble {
            bits: octet % NIBBLES,
        },
    )
}

/// The octet of slot 16 with these nibbles, bits 1 to 4 first.
pub fn join(high: Nibble, low: Nibble) -> u8
    ensures value { result ≡ 16 * high + low }
    ensures range { (high < 16) × (low < 16) }
{
    high.bits * NIBBLES + low.bits
}
