//! Octets of speech coded in place to the words of a stream's codec.
ghost use Rattle.std.specs.Prelude.{◌≡◌, ◌^◌, ◌<◌, ◌++◌, ℕ, List, length};
ghost use Rattle.std.specs.List.{All};
ghost use Rattle.rtp_pack.specs.Payload.{IsWordSize};
ghost use Rattle.gw_speech.specs.Encode.{word_bits, words_for, HasEncoded};

use crate::stream_spec::StreamSpec;
use g726_codec::AnyCodec;

/// The bits of a code word of the stream.
pub fn word_bits(spec: &StreamSpec) -> u8
    ensures value { result ≡ word_bits spec.now }
    ensures size { IsWordSize result }
{
    spec.codec.bits()
}

/// Codes octets of the stream in place.
pub fn encode_all(spec: &StreamSpec, codec: &mut AnyCodec, octets: &mut [u8])
    requires { codec.old.kind ≡ spec.now.codec }
    ensures kind { codec.new.kind ≡ spec.now.codec }
    ensures len { length octets.new ≡ length octets.old }
    ensures fit { All (λ w. w < 2 ^ word_bits spec.now) octets.new }
    ensures words { (given : List ℕ) → HasEncoded spec.now codec.old given
        → words_for spec.now (given ++ octets.old) ≡ words_for spec.now given ++ octets.new }
    ensures stands { (given : List ℕ) → HasEncoded spec.now codec.old given
        → HasEncoded spec.now codec.new (given ++ octets.old) }
{
    codec.encode_all(octets);
}
