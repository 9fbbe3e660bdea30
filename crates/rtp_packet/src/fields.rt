//! Where the fields of a fixed RTP header are in its octets (RFC 3550, 5.1).

ghost use Rattle.std.specs.Prelude.{◌≡◌, ◌≤◌, length};
ghost use Rattle.rtp_packet.specs.Fault.{version_of, says_padded, says_extended, sources_end};
ghost use Rattle.rtp_packet.specs.Read.{header_of, marker_of};

use crate::{HEADER_LEN, Header};
use byteorder::{BigEndian, ByteOrder};

// In the first octet: the bits below the version, V, which has the top two.
const VERSION_SHIFT: u32 = 6;

// In the first octet: whether padding follows the payload, P.
const PADDING_BIT: u8 = 0x20;

// In the first octet: whether an extension follows the sources, X.
const EXTENSION_BIT: u8 = 0x10;

// In the first octet: how many sources there are, CC.
const SOURCE_COUNT: u8 = 0x0F;

// In the second octet: the marker, M.
const MARKER_BIT: u8 = 0x80;

// In the second octet: the payload type, PT.
const PAYLOAD_TYPE: u8 = 0x7F;

// The version field of a header.
pub(crate) fn version(octets: &[u8]) -> u8
    requires { 12 ≤ length octets.now }
    ensures { result ≡ version_of octets.now }
{
    octets[0] >> VERSION_SHIFT
}

// Whether the P bit is set.
#[tactic(auto, using(crate::proofs::Bits::padding_bit))]
pub(crate) fn has_padding(octets: &[u8]) -> bool
    requires { 12 ≤ length octets.now }
    ensures { result ≡ says_padded octets.now }
{
    octets[0] & PADDING_BIT != 0
}

// Whether the X bit is set.
#[tactic(auto, using(crate::proofs::Bits::extension_bit))]
pub(crate) fn has_extension(octets: &[u8]) -> bool
    requires { 12 ≤ length octets.now }
    ensures { result ≡ says_extended octets.now }
{
    octets[0] & EXTENSION_BIT != 0
}

// The end of the sources, of four octets each.
pub(crate) fn sources_end_in(octets: &[u8]) -> usize
    requires { 12 ≤ length octets.now }
    ensures { result ≡ sources_end octets.now }
{
    HEADER_LEN + 4 * usize::from(octets[0] & SOURCE_COUNT)
}

// The marker bit of a header.
#[tactic(auto, unfolding(crate::specs::Read::marker_of))]
pub(crate) fn marker_in(octets: &[u8]) -> bool
    requires { 12 ≤ length octets.now }
    ensures { result ≡ marker_of octets.now }
{
    octets[1] & MARKER_BIT != 0
}

/// The fields of the header of a datagram, which has one: it is not looked at what else is wrong.
#[tactic(auto, unfolding(crate::specs::Read::header_of))]
pub fn header_in(octets: &[u8]) -> Header
    requires { 12 ≤ length octets.now }
    ensures { result ≡ header_of octets.now }
{
    Header {
        payload_type: octets[1] & PAYLOAD_TYPE,
        sequence: BigEndian::read_u16(&octets[2..4]),
        timestamp: BigEndian::read_u32(&octets[4..8]),
        ssrc: BigEndian::read_u32(&octets[8..12]),
    }
}
