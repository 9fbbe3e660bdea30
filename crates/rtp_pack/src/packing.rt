//! Packs code words into the octets of a payload (`pack`).

ghost use Rattle.std.specs.Prelude.{◌≡◌, []};
ghost use Rattle.rtp_pack.specs.Payload.{IsWordSize, IsPayload, octets_of};

use crate::OCTET_BITS;
use crate::bit_buffer::BitBuffer;
use arrayvec::ArrayVec;

// The bits of half an octet.
const HALF_BITS: u8 = 4;

/// Packs words of `bits` bits into `out` (RFC 3551, 4.5.4).
///
/// The former contents of `out` are lost. Each word is below 2^`bits`, and together they are a whole number
/// of octets, 240 at most.
pub fn pack(bits: u8, words: &[u8], out: &mut ArrayVec<u8, 240>)
    requires size { IsWordSize bits }
    requires words { IsPayload bits words.now }
    ensures { out.new.items ≡ octets_of bits words.now }
{
    out.clear();
    if bits == OCTET_BITS {
        // a word of 8 bits is an octet, and all of them fit
        let _ = out.try_extend_from_slice(words);
    } else if bits == HALF_BITS {
        pack_halves(words, out);
    } else {
        pack_across(bits, words, out);
    }
}

// Packs words of four bits, two in each octet.
fn pack_halves(words: &[u8], out: &mut ArrayVec<u8, 240>)
    requires words { IsPayload 4 words.now }
    requires empty { out.old.items ≡ [] }
    ensures { out.new.items ≡ octets_of 4 words.now }
{
    for i in 0..words.len() / 2 {
        let mut waiting = BitBuffer::none();
        waiting.push(words[2 * i], HALF_BITS);
        waiting.push(words[2 * i + 1], HALF_BITS);
        out.push(waiting.pop(OCTET_BITS));
    }
}

// Packs words that cross octets.
fn pack_across(bits: u8, words: &[u8], out: &mut ArrayVec<u8, 240>)
    requires size { IsWordSize bits }
    requires words { IsPayload bits words.now }
    requires empty { out.old.items ≡ [] }
    ensures { out.new.items ≡ octets_of bits words.now }
{
    let mut waiting = BitBuffer::none();
    for word in words {
        waiting.push(*word, bits);
        if waiting.count >= OCTET_BITS {
            out.push(waiting.pop(OCTET_BITS));
        }
    }
}
