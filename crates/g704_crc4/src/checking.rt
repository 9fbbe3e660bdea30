//! Whether a received CRC-4 submultiframe or E bit shows an error, and counts of both (`Checker`).

ghost use Rattle.std.specs.Prelude.{◌≡◌, ◌+◌, ◌%◌, ◌/◌, ◌<◌, ◌≤◌, ℕ, Bool, if◌then◌else◌, List, Option, []};
ghost use Rattle.std.specs.Prelude.{◌∷◌, ◌++◌, length, true};
ghost use Rattle.g704_crc4.specs.Checking.{same, check_bits_with, far_end_event, block_event, event_of};
ghost use Rattle.g704_crc4.specs.Checking.{counts_of, counts_with, errors_with};
ghost use Rattle.g704_crc4.specs.declared.remainder.Remainder.{Remainder};
ghost use Rattle.g704_crc4.specs.Remainder.{after_all, crc_number};
ghost use Rattle.g704_crc4.specs.Receiving.{cleared_at};
ghost use Rattle.g704_crc4.specs.States.{ChecksAfter, IsQuiet};

use crate::remainder::{NO_REMAINDER, Remainder, add, number_after, number_after_all, of_number};
use crate::{BIT_1, FRAME, MULTIFRAME, SUBMULTIFRAME, TWO_FRAMES};

/// What a receiver learns from an octet.
#[derive(Clone, Copy, Debug, PartialEq, Eq)]
pub enum Crc4Event {
    /// A submultiframe is complete: whether its check bits are the remainder of the one before it.
    Block {
        /// They are.
        right: bool,
    },
    /// An E bit: whether the far end found a submultiframe right.
    FarEnd {
        /// It did.
        right: bool,
    },
}

/// The counts of a receiver.
///
/// They saturate.
#[derive(Clone, Copy, Debug, PartialEq, Eq)]
pub struct Counts {
    /// Submultiframes that were checked.
    pub blocks: u64,
    /// Errored ones among them.
    pub errored: u64,
    /// E bits that report a submultiframe errored at the far end.
    pub far_end_errored: u64,
}

// No submultiframe was checked.
const NO_COUNTS: Counts = Counts {
    blocks: 0,
    errored: 0,
    far_end_errored: 0,
};

/// Checks the submultiframes of a stream whose multiframes begin at its first octet.
#[derive(Clone, Copy, Debug, PartialEq, Eq)]
pub struct Checker {
    // The place of the next octet in its multiframe.
    place: u16,
    // The remainder of the previous submultiframe.
    before: Remainder,
    // The remainder of this one so far, as a number.
    running: u8,
    // The check bits of this one so far.
    check_bits: Remainder,
    // Whether there is a previous submultiframe.
    begun: bool,
}

impl Checker {
    /// A checker at the start of a stream.
    pub fn new() -> Self
        ensures { ChecksAfter result [] }
    {
        Checker {
            place: 0,
            before: NO_REMAINDER,
            running: 0,
            check_bits: NO_REMAINDER,
            begun: false,
        }
    }

    /// Takes the next octet and returns what it shows of CRC-4.
    pub fn octet(&mut self, octet: u8) -> Option<Crc4Event>
        ensures reply { (history : List ℕ) → ChecksAfter self.old history
            → result ≡ event_of (history ++ octet ∷ []) }
        ensures stands { (history : List ℕ) → ChecksAfter self.old history
            → ChecksAfter self.new (history ++ octet ∷ []) }
    {
        if self.place % FRAME == 0 {
            return self.first_octet(octet);
        }
        self.running = number_after(self.running, octet);
        self.place = self.place.wrapping_add(1) % MULTIFRAME;
        if self.place % SUBMULTIFRAME == 0 {
            return self.end_submultiframe();
        }
        None
    }

    /// How many of the next octets show nothing: the rest of a frame, but for a submultiframe's last octet.
    #[inline]
    pub(crate) fn quiet_count(&self) -> usize
        ensures { IsQuiet self.now.place result }
    {
        let in_frame = (FRAME - self.place % FRAME) % FRAME;
        let before_last = SUBMULTIFRAME - 1 - self.place % SUBMULTIFRAME;
        usize::from(in_frame.min(before_last))
    }

    /// Takes octets that show nothing.
    #[inline]
    pub(crate) fn pass_quiet(&mut self, octets: &[u8])
        requires { IsQuiet self.old.place (length octets.now) }
        ensures running { (left : Remainder) → self.old.running ≡ crc_number left
            → self.new.running ≡ crc_number (after_all left octets.now) }
        ensures others { self.new ≡ record self.old {
          place = (self.old.place + length octets.now) % 512;
          running = self.new.running;
        } }
    {
        self.running = number_after_all(self.running, octets);
        self.place = self.place.wrapping_add(octets.len() as u16) % MULTIFRAME;
    }

    // Takes the first octet of a frame.
    //
    // It is out of line, so that other octets cost only a step of the remainder.
    #[inline(never)]
    fn first_octet(&mut self, octet: u8) -> Option<Crc4Event>
        ensures reply { (history : List ℕ) → ChecksAfter self.old history → self.old.place % 32 ≡ 0
            → result ≡ event_of (history ++ octet ∷ []) }
        ensures stands { (history : List ℕ) → ChecksAfter self.old history → self.old.place % 32 ≡ 0
            → ChecksAfter self.new (history ++ octet ∷ []) }
    {
        let place = self.place;
        let si = octet >= BIT_1;
        self.check_bits = check_bits_with(self.check_bits, place, si);
        self.running = number_after(self.running, cleared(place, octet));
        self.place = place.wrapping_add(1) % MULTIFRAME;
        far_end_event(place, si)
    }

    // Compares received check bits with the submultiframe before.
    #[inline(never)]
    fn end_submultiframe(&mut self) -> Option<Crc4Event>
        ensures reply { result ≡ block_event self.old.begun (same self.old.check_bits self.old.before) }
        ensures before { (left : Remainder) → self.old.running ≡ crc_number left → self.new.before ≡ left }
        ensures anew { (self.new.running ≡ 0) × (self.new.begun ≡ true) }
        ensures kept { (self.new.place ≡ self.old.place) × (self.new.check_bits ≡ self.old.check_bits) }
    {
        let event = block_event(self.begun, same(self.check_bits, self.before));
        self.before = of_number(self.running);
        self.running = 0;
        self.begun = true;
        event
    }
}

/// Counts submultiframes and E bits of octets that begin a multiframe.
///
/// Returns the counts.
pub fn check(octets: &[u8]) -> Counts
    ensures { result ≡ counts_of octets.now }
{
    let mut checker = Checker::new();
    let mut counts = NO_COUNTS;
    for octet in octets {
        counts = counts_with(counts, checker.octet(*octet));
    }
    counts
}

// The counts of submultiframes and E bits with an event.
fn counts_with(counts: Counts, event: Option<Crc4Event>) -> Counts
    ensures { result ≡ counts_with counts event }
{
    match event {
        None => counts,
        Some(Crc4Event::Block { right }) => Counts {
            blocks: counts.blocks.saturating_add(1),
            errored: errors_with(counts.errored, right),
            far_end_errored: counts.far_end_errored,
        },
        Some(Crc4Event::FarEnd { right }) => Counts {
            blocks: counts.blocks,
            errored: counts.errored,
            far_end_errored: errors_with(counts.far_end_errored, right),
        },
    }
}

// The count of errored submultiframes or E bits, after one more.
fn errors_with(count: u64, right: bool) -> u64
    ensures { result ≡ errors_with count right }
{
    if right {
        count
    } else {
        count.saturating_add(1)
    }
}

// The event of a submultiframe's last octet, if there is a previous one.
fn block_event(begun: bool, right: bool) -> Option<Crc4Event>
    ensures { result ≡ block_event begun right }
{
    if begun {
        Some(Crc4Event::Block { right })
    } else {
        None
    }
}

// The event of an E bit, in frames 13 and 15 of a multiframe.
fn far_end_event(place: u16, si: bool) -> Option<Crc4Event>
    ensures { result ≡ far_end_event place si }
{
    if place == 416 || place == 480 {
        Some(Crc4Event::FarEnd { right: si })
    } else {
        None
    }
}

// The check bits with the Si bit of an octet, if it is one of them.
fn check_bits_with(check_bits: Remainder, place: u16, si: bool) -> Remainder
    ensures { result ≡ check_bits_with check_bits place si }
{
    let place = place % SUBMULTIFRAME;
    Remainder {
        c1: either(place == 0, si, check_bits.c1),
        c2: either(place == 64, si, check_bits.c2),
        c3: either(place == 128, si, check_bits.c3),
        c4: either(place == 192, si, check_bits.c4),
    }
}

// The first of two values if `first` is set, else the second.
fn either(first: bool, a: bool, b: bool) -> bool
    ensures { result ≡ (if first then a else b) }
{
    if first { a } else { b }
}

// An octet with its check bit cleared, if it has one.
fn cleared(place: u16, octet: u8) -> u8
    ensures { (position : ℕ) → place ≡ position % 512 → result ≡ cleared_at position octet }
{
    if place % TWO_FRAMES == 0 {
        octet % BIT_1
    } else {
        octet
    }
}

// Whether two remainders are equal.
fn same(a: Remainder, b: Remainder) -> bool
    ensures { result ≡ same a b }
{
    !(add(a.c1, b.c1) || add(a.c2, b.c2) || add(a.c3, b.c3) || add(a.c4, b.c4))
}
