//! What the header of an RTP datagram says (`rtp_header`).

ghost use Rattle.std.specs.Prelude.{◌≡◌};
ghost use Rattle.gw_tell.specs.Headers.{rtp_header};

use rtp_packet::{HEADER_LEN, Header, header_in};

// The header of what is too short for one.
const NO_HEADER: Header = Header {
    payload_type: 0,
    sequence: 0,
    timestamp: 0,
    ssrc: 0,
};

/// The header of a datagram; zeros if it is too short for one.
pub fn rtp_header(octets: &[u8]) -> Header
    ensures { result ≡ rtp_header octets.now }
{
    if octets.len() < HEADER_LEN {
        return NO_HEADER;
    }
    header_in(octets)
}
