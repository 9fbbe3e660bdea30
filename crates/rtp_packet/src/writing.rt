//! The octets of an RTP datagram, by its header and payload (`write`).

ghost use Rattle.std.specs.Prelude.{◌≡◌, ◌<◌, ◌↔◌, [], false, length, IsErr, OnOk, OnErr};
ghost use Rattle.rtp_packet.specs.Rtp.{FitsHeader, IsDatagram, fixed_header, plain_datagram};

use crate::{HEADER_LEN, Header, MAX_PAYLOAD, TooLong};
use arrayvec::ArrayVec;
use byteorder::{BigEndian, ByteOrder};

// The first octet of a version 2 datagram without padding, extension or sources.
const PLAIN_VERSION_2: u8 = 0x80;

/// Writes the datagram of a header and a payload (RFC 3550, 5.1).
///
/// It has no padding, extension or sources, and the marker is clear. The former contents of `out` are lost.
///
/// `TooLong` if the payload has more than 240 octets; `out` is then unchanged.
#[tactic(auto, unfolding(crate::specs::Rtp::plain_datagram))]
pub fn write(header: &Header, payload: &[u8], out: &mut ArrayVec<u8, 252>) -> Result<(), TooLong>
    requires { header.now.payload_type < 128 }
    ensures ok { OnOk result (out.new.items ≡ plain_datagram header.now payload.now) }
    ensures datagram { OnOk result (IsDatagram out.new.items (record {
      header = header.now;
      marker = false;
      sources = [];
      extension = None;
      payload = payload.now;
    }) 0 []) }
    ensures too_long { IsErr result ↔ (240 < length payload.now) }
    ensures err { OnErr result (out.new ≡ out.old) }
{
    if payload.len() > MAX_PAYLOAD {
        return Err(TooLong);
    }
    // both parts fit, because 12 and 240 are 252
    out.clear();
    let _ = out.try_extend_from_slice(&fixed_octets(header));
    let _ = out.try_extend_from_slice(payload);
    Ok(())
}

// The fixed header of a datagram with no padding, extension or sources.
fn fixed_octets(header: &Header) -> [u8; 12]
    requires { header.now.payload_type < 128 }
    ensures octets { result ≡ fixed_header false false 0 false header.now }
    ensures fits { FitsHeader header.now }
{
    let Header {
        payload_type,
        sequence,
        timestamp,
        ssrc,
    } = *header;
    let mut octets = [0u8; HEADER_LEN];
    octets[0] = PLAIN_VERSION_2;
    octets[1] = payload_type;
    BigEndian::write_u16(&mut octets[2..4], sequence);
    BigEndian::write_u32(&mut octets[4..8], timestamp);
    BigEndian::write_u32(&mut octets[8..12], ssrc);
    octets
}
