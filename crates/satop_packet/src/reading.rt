//! Whether octets are a SAToP packet, or its first fault (`parse`).

ghost use Rattle.std.specs.Prelude.{◌≡◌, ◌+◌, ◌≤◌, None, Some, IfOk, IsOkAnd, MatchResult};
ghost use Rattle.satop_packet.specs.Satop.{Content};
ghost use Rattle.satop_packet.specs.Fault.{fault};
ghost use Rattle.satop_packet.specs.Laws.{IsPacketOf};
ghost use Rattle.satop_packet.specs.Read.{reading_of};

use crate::fields::{control_in, start_of};
use crate::{CONTROL_LEN, SatopFault, SatopView};

// The first octet of a fixed RTP header: version 2, without padding, extension or sources.
const FIXED_RTP: u8 = 0x80;

/// Reads a packet in place, behind a fixed RTP header if `rtp` is set.
///
/// The view shows its parts. RSV and FRG are ignored (RFC 4553, 4.3).
///
/// # Errors
///
/// The first fault, if the octets are not a packet.
pub fn parse(octets: &[u8], rtp: bool) -> Result<SatopView<'_>, SatopFault>
    ensures ok { IfOk result (λ parts. IsPacketOf rtp parts octets.now) }
    ensures exact { (parts : Content) → IsPacketOf rtp parts octets.now
        → IsOkAnd result (λ view. view ≡ parts) }
    ensures fault { MatchResult result
        (λ _. fault rtp octets.now ≡ None) (λ f. fault rtp octets.now ≡ Some f) }

    // the three above as one equation
    ensures read { result ≡ reading_of rtp octets.now }
{
    view_in(octets, rtp)
}

// The parts of a packet, or its first fault.
#[tactic(auto, unfolding(crate::specs::Read::reading_of, crate::specs::Read::content_of))]
fn view_in(octets: &[u8], rtp: bool) -> Result<SatopView<'_>, SatopFault>
    ensures { result ≡ reading_of rtp octets.now }
{
    let start = start_of(rtp);
    let end = start + CONTROL_LEN;
    if octets.len() < end {
        return Err(SatopFault::Short);
    }
    if rtp && octets[0] != FIXED_RTP {
        return Err(SatopFault::NoRtp);
    }
    if octets[start] / 16 != 0 {
        return Err(SatopFault::NoControl);
    }
    let len = usize::from(octets[start + 1] % 64);
    if len != 0 && len != octets.len() {
        return Err(SatopFault::OtherLength);
    }
    Ok(SatopView {
        rtp: &octets[..start],
        control: control_in(octets, start),
        payload: &octets[end..],
    })
}
