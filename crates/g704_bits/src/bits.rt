//! Octets received at any bit offset to octets of the time slots, one for one (`BitAligner`).

ghost use Rattle.std.specs.Prelude.{◌≡◌, ◌+◌, ◌<◌, ℕ, List, [], ◌∷◌, ◌++◌};
ghost use Rattle.g704_bits.specs.Aligner.{HasHistory};
ghost use Rattle.g704_bits.specs.Bits.{aligned_octet, window_at, windows_in, windows_of};
ghost use Rattle.g704_bits.specs.Standing.{StandsAfter};

use crate::aligner::Aligner;

// The line before the first octet: ones, which contain no signal.
const BEFORE: u8 = 0xFF;

/// Aligns octets to time slots, one for one.
///
/// Each octet returned is the eight bits that end at the offset of the last alignment found, in the octet
/// received and the one before it; so it is delayed by up to seven bits.
///
/// Before the first alignment octets pass unchanged. Without alignment they pass at the last offset.
///
/// ```rust
/// let mut aligner = BitAligner::new();
/// for place in 0..639usize {                                  // a trunk whose octets come three bits late
///     let _octet = aligner.octet(late(3, place));
/// }
/// assert_eq!(rt; aligner.octet(late(3, 639)), trunk(638));    // its own octets come out
/// ```
#[derive(Debug, Drop)]
pub struct BitAligner {
    aligner: Aligner,
    // The last octet received.
    before: u8,
}

impl BitAligner {
    /// An aligner at the start of a stream.
    pub fn new() -> Self
        ensures { StandsAfter result [] }
    {
        BitAligner {
            aligner: Aligner::new(),
            before: BEFORE,
        }
    }

    /// Takes the next octet and returns the next one of the aligned stream.
    pub fn octet(&mut self, octet: u8) -> u8
        ensures reply { (history : List ℕ) → StandsAfter self.old history
            → result ≡ aligned_octet (history ++ octet ∷ []) }
        ensures stands { (history : List ℕ) → StandsAfter self.old history
            → StandsAfter self.new (history ++ octet ∷ []) }
    {
        let before = self.before;
        self.before = octet;
        take_octet(&mut self.aligner, before, octet);
        window_at(before, octet, self.aligner.offset())
    }
}

// Takes the eight windows of an octet, at once if the aligner checks none of them.
fn take_octet(aligner: &mut Aligner, before: u8, octet: u8)
    ensures { (history : List ℕ) → HasHistory aligner.old (windows_of history)
        → HasHistory aligner.new (windows_of history ++ windows_in before octet) }
{
    if aligner.skip() {
        return;
    }
    take_windows(aligner, before, octet);
}

// Takes the eight windows of an octet, one after another.
#[inline(never)]
fn take_windows(aligner: &mut Aligner, before: u8, octet: u8)
    ensures { (history : List ℕ) → HasHistory aligner.old (windows_of history)
        → HasHistory aligner.new (windows_of history ++ windows_in before octet) }
{
    for bit in 0..8u8 {
        aligner.window(window_at(before, octet, bit), bit);
    }
}

// The window that ends at a bit of the second of two octets.
fn window_at(before: u8, octet: u8, bit: u8) -> u8
    ensures { bit < 8 → result ≡ window_at before octet bit }
{
    let pair = 256 * u16::from(before) + u16::from(octet);
    ((pair >> (7 - bit.min(7))) % 256) as u8
}
