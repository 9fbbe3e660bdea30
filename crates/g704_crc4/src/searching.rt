//! Where the multiframe alignment signal begins in received octets (`find_multiframe`).

ghost use Rattle.std.specs.Prelude.{◌≡◌, ◌*◌, ◌<◌, ◌^◌, ℕ, Bool, true, false, IfSome, IfNone};
ghost use Rattle.g704_crc4.specs.Receiving.{si_of};
ghost use Rattle.g704_crc4.specs.Searching.{has_signal, begins_multiframe};

use crate::BIT_1;

/// The double frame at which the first multiframe begins.
///
/// Double frames begin at the first octet. The multiframe alignment signal is there, and again 2, 4 or 6 ms
/// later.
pub fn find_multiframe(octets: &[u8]) -> Option<usize>
    ensures found { IfSome result (λ number. begins_multiframe octets.now (2 * number) ≡ true) }
    ensures first { IfSome result (λ number. (earlier : ℕ) → earlier < number
        → begins_multiframe octets.now (2 * earlier) ≡ false) }
    ensures none { IfNone result ((number : ℕ) → begins_multiframe octets.now (2 * number) ≡ false) }
{
    for number in 0..octets.len() / 64 {
        if begins_multiframe(octets, 2 * number) {
            return Some(number);
        }
    }
    None
}

// Whether a CRC-4 multiframe begins at a frame of the octets.
#[tactic(auto, unfolding(crate::specs::Searching::begins_multiframe))]
fn begins_multiframe(octets: &[u8], frame: usize) -> bool
    requires { frame < 2 ^ 60 }
    ensures { result ≡ begins_multiframe octets.now frame }
{
    has_signal(octets, frame)
        && (has_signal(octets, frame + 16)
            || has_signal(octets, frame + 32)
            || has_signal(octets, frame + 48))
}

// Whether the multiframe alignment signal begins at this frame.
#[tactic(auto, unfolding(crate::specs::Searching::has_signal))]
fn has_signal(octets: &[u8], frame: usize) -> bool
    requires { frame < 2 ^ 61 }
    ensures { result ≡ has_signal octets.now frame }
{
    !si_of(octets, frame + 1)
        && !si_of(octets, frame + 3)
        && si_of(octets, frame + 5)
        && !si_of(octets, frame + 7)
        && si_of(octets, frame + 9)
        && si_of(octets, frame + 11)
}

// Bit 1 of time slot 0 of a frame; zero past the end.
#[tactic(auto, unfolding(crate::specs::Receiving::si_of))]
fn si_of(octets: &[u8], frame: usize) -> bool
    ensures { result ≡ si_of octets.now frame }
{
    if frame > octets.len() / 32 {
        return false;
    }
    let place = 32 * frame;
    if place < octets.len() {
        octets[place] >= BIT_1
    } else {
        false
    }
}
