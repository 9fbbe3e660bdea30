//! The octets of a SAToP packet, by its control word and payload (`write`).

ghost use Rattle.std.specs.Prelude.{◌≡◌, ◌<◌, ◌↔◌, length, IsErr, OnOk, OnErr};
ghost use Rattle.satop_packet.specs.Satop.{IsRtp, control_word, length_said, plain_packet};

use crate::{CONTROL_LEN, Control, MAX_PAYLOAD, TooLong};
use arrayvec::ArrayVec;
use byteorder::{BigEndian, ByteOrder};

// LEN is 0 for packets of at least this many octets.
const LEAST_UNSAID: usize = 64;

/// Writes the packet of an RTP header, a control word and a payload.
///
/// The RTP header is empty or the twelve octets of a fixed one. RSV and FRG are zero, and LEN is the number
/// of all octets if they are fewer than 64, otherwise 0. The former contents of `out` are lost.
///
/// ```rust
/// let remote = Control { lost: false, remote: true, sequence: 7 };
/// let mut out = ArrayVec::new();
/// assert!(rt; write(&[], &remote, &[0xD5; 2], &mut out).is_ok());
/// assert!(rt; out.as_slice() == [4, 6, 0, 7, 0xD5, 0xD5].as_slice());
/// ```
///
/// # Errors
///
/// [`TooLong`] if the payload has more than 1280 octets; `out` is then unchanged.
#[tactic(auto, unfolding(crate::specs::Satop::plain_packet))]
pub fn write(
    rtp: &[u8],
    control: &Control,
    payload: &[u8],
    out: &mut ArrayVec<u8, 1296>,
) -> Result<(), TooLong>
    requires { IsRtp rtp.now }
    ensures ok { OnOk result (out.new.items ≡ plain_packet rtp.now control.now payload.now) }
    ensures too_long { IsErr result ↔ (1280 < length payload.now) }
    ensures err { OnErr result (out.new ≡ out.old) }
{
    if payload.len() > MAX_PAYLOAD {
        return Err(TooLong);
    }
    let size = rtp.len() + CONTROL_LEN + payload.len();
    // the parts fit, because 12, 4 and 1280 are 1296
    out.clear();
    let _ = out.try_extend_from_slice(rtp);
    let _ = out.try_extend_from_slice(&control_octets(control, length_said(size)));
    let _ = out.try_extend_from_slice(payload);
    Ok(())
}

// LEN of a packet with this many octets.
fn length_said(size: usize) -> u8
    ensures { result ≡ length_said size }
{
    if size < LEAST_UNSAID { size as u8 } else { 0 }
}

// The four octets of the control word.
fn control_octets(control: &Control, len: u8) -> [u8; 4]
    ensures { result ≡ control_word control.now 0 0 len }
{
    let mut octets = [0u8; CONTROL_LEN];
    octets[0] = (if control.lost { 8 } else { 0 }) + (if control.remote { 4 } else { 0 });
    octets[1] = len;
    BigEndian::write_u16(&mut octets[2..4], control.sequence);
    octets
}
