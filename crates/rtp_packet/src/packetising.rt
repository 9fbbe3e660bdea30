//! Code words to an RTP datagram, by its header (`packetise`).

ghost use Rattle.std.specs.Prelude.{◌≡◌, ◌<◌};
ghost use Rattle.rtp_pack.specs.Payload.{IsWordSize, IsPayload, octets_of};
ghost use Rattle.rtp_packet.specs.Rtp.{plain_datagram};

use crate::{Header, write};
use arrayvec::ArrayVec;
use rtp_pack::pack;

/// Makes a datagram of a header and words of `bits` bits.
///
/// The header is that of RFC 3550, 5.1, the payload that of RFC 3551, 4.5.4; the former contents of
/// `datagram` are lost.
///
/// The words have 2, 3, 4, 5 or 8 bits, each is below 2^`bits`, and together they are a whole number of
/// octets, 240 at most; the payload type is at most 127. There is no padding, extension or source, and the
/// marker is clear.
pub fn packetise(header: &Header, bits: u8, words: &[u8], datagram: &mut ArrayVec<u8, 252>)
    requires payload_type { header.now.payload_type < 128 }
    requires size { IsWordSize bits }
    requires words { IsPayload bits words.now }
    ensures { datagram.new.items ≡ plain_datagram header.now (octets_of bits words.now) }
{
    let mut payload: ArrayVec<u8, 240> = ArrayVec::new();
    pack(bits, words, &mut payload);
    // a payload never exceeds a datagram's room
    let _ = write(header, payload.as_slice(), datagram);
}
