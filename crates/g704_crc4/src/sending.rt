//! Bit 1 of time slot 0 as sent: check bits, alignment signal and E bits (`Crc4Inserter`).

ghost use Rattle.std.specs.Prelude.{◌≡◌, ◌≢◌, ◌==◌, ◌+◌, ◌%◌, ◌/◌, ◌<◌, ◌≤◌, ℕ, List, [], ◌∷◌, ◌++◌, length};
ghost use Rattle.std.specs.Prelude.{take};
ghost use Rattle.g704_framing.specs.Replies.{replies_after};
ghost use Rattle.g704_crc4.specs.declared.remainder.Remainder.{Remainder};
ghost use Rattle.g704_crc4.specs.Remainder.{no_remainder, crc_number};
ghost use Rattle.g704_crc4.specs.Multiframe.{check_bit, signal_bit, si_at, with_si, sent_octet};
ghost use Rattle.g704_crc4.specs.Reporting.{has_e_bit};
ghost use Rattle.g704_crc4.specs.States.{SendsAfter, SendsNext};

use crate::remainder::{check_bit, number_after, number_after_all};
use crate::{BIT_1, FRAME, MULTIFRAME, SUBMULTIFRAME};

/// Puts CRC-4 multiframes into bit 1 of time slot 0.
///
/// The frames begin at the first octet, which carries the frame alignment signal. No other bit changes,
/// nor do the E bits (see [`crate::EBitReporter`]).
#[derive(Clone, Copy, Debug, PartialEq, Eq)]
pub struct Crc4Inserter {
    // The octets so far, modulo 2^16, a whole number of multiframes.
    place: u16,
    // The remainder of the submultiframe before the last octet's, as a number.
    before: u8,
    // The remainder of the last octet's submultiframe.
    running: u8,
}

impl Crc4Inserter {
    /// A multiframer at the start of a stream.
    pub fn new() -> Self
        ensures { SendsAfter result [] }
    {
        Crc4Inserter {
            place: 0,
            before: 0,
            running: 0,
        }
    }

    /// Whether the next octet has an E bit.
    pub fn next_has_e_bit(&self) -> bool
        ensures { (history : List ℕ) → SendsAfter self.now history → result ≡ has_e_bit (length history) }
    {
        has_e_bit(self.place)
    }

    /// Takes the next octet and returns it with its CRC-4 bit.
    pub fn octet(&mut self, octet: u8) -> u8
        ensures reply { (history : List ℕ) → SendsAfter self.old history
            → result ≡ sent_octet history octet }
        ensures stands { (history : List ℕ) → SendsAfter self.old history
            → SendsAfter self.new (history ++ octet ∷ []) }
    {
        if self.place % FRAME == 0 {
            return self.first_octet(octet);
        }
        self.place = self.place.wrapping_add(1);
        self.running = number_after(self.running, octet);
        octet
    }

    /// Takes the rest of a frame, or these octets of it, which are sent as they come, and returns how many.
    #[inline]
    pub fn pass_rest(&mut self, octets: &[u8]) -> usize
        ensures bound { result ≤ length octets.now }
        ensures in_frame { (history : List ℕ) → SendsAfter self.old history
            → (k : ℕ) → k < result → (length history + k) % 32 ≢ 0 }
        ensures reply { (history : List ℕ) → SendsAfter self.old history
            → replies_after sent_octet history (take result octets.now) ≡ take result octets.now }
        ensures stands { (history : List ℕ) → SendsAfter self.old history
            → SendsAfter self.new (history ++ take result octets.now) }
    {
        let count = usize::from((FRAME - self.place % FRAME) % FRAME).min(octets.len());
        self.place = self.place.wrapping_add(count as u16);
        self.running = number_after_all(self.running, &octets[..count]);
        count
    }

    // Takes the first octet of a frame.
    //
    // It is out of line, so that thirty-one of thirty-two octets cost only a step of the remainder.
    #[inline(never)]
    fn first_octet(&mut self, octet: u8) -> u8
        ensures reply { (history : List ℕ) → SendsAfter self.old history → length history % 32 ≡ 0
            → result ≡ sent_octet history octet }
        ensures stands { (history : List ℕ) → SendsAfter self.old history → length history % 32 ≡ 0
            → SendsAfter self.new (history ++ octet ∷ []) }
    {
        self.begin_submultiframe();
        let frame = self.place / FRAME % 16;
        self.place = self.place.wrapping_add(1);
        let came = octet >= BIT_1;
        self.running = number_after(self.running, with_si(octet, si_at(0, frame, came)));
        with_si(octet, si_at(self.before, frame, came))
    }

    // Begins the next submultiframe if the last one has ended.
    fn begin_submultiframe(&mut self)
        ensures { (history : List ℕ) → SendsAfter self.old history → SendsNext self.new history }
    {
        if self.place % SUBMULTIFRAME == 0 {
            self.before = self.running;
            self.running = 0;
        }
    }
}

// Whether the octet at a place has an E bit.
fn has_e_bit(place: u16) -> bool
    ensures { result ≡ has_e_bit place }
{
    let within = place % MULTIFRAME;
    within == 13 * FRAME || within == 15 * FRAME
}

// The Si bit of a frame of a multiframe, by the one that comes.
fn si_at(number: u8, frame: u16, came: bool) -> bool
    ensures { (bits : Remainder) → number ≡ crc_number bits → result ≡ si_at bits frame came }
{
    if frame % 2 == 0 {
        check_bit(number, frame / 2 % 4)
    } else {
        signal_bit(frame / 2, came)
    }
}

// The multiframe alignment signal, and both E bits as they come, by number from 0.
fn signal_bit(number: u16, came: bool) -> bool
    ensures { result ≡ signal_bit number came }
{
    match number {
        2 | 4 | 5 => true,
        6 | 7 => came,
        _ => false,
    }
}

// An octet with this bit 1, the Si bit.
pub(crate) fn with_si(octet: u8, si: bool) -> u8
    ensures { result ≡ with_si si octet }
{
    if si {
        BIT_1 + octet % BIT_1
    } else {
        octet % BIT_1
    }
}
