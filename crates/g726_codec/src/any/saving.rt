//! A codec of any kind saved as octets, and loaded from them.

ghost use Rattle.std.specs.Prelude.{◌≡◌, ◌++◌, ℕ, List, OnOk, IfSome, Some, option_map};
ghost use Rattle.e1_g711.specs.declared.Law.{Law};
ghost use Rattle.g726_codec.specs.Codec.{Variables};
ghost use Rattle.g726_codec.specs.Kinds.{CodecState};
ghost use Rattle.g726_codec.specs.Saved.{saved_codec, saved_variables, CodecFits, VariablesFit};
ghost use Rattle.g726_codec.specs.Views.{state_of};

use crate::any::{AnyCodec, Codec};
use crate::{CodecKind, Decoder, Encoder};
use e1_g711::Law;
use g726_quant::Rate;
use saved_octets::OctetReader;
use std::alloc::AllocError;

impl AnyCodec {
    /// Appends the octets of encoder and decoder; none for G.711.
    pub fn save(&self, out: &mut Vec<u8>) -> Result<(), AllocError>
        ensures octets { OnOk result (out.new.items ≡ out.old.items ++ saved_codec self.now) }
        ensures fits { OnOk result (CodecFits self.now) }
    {
        self.codec.save(out)
    }

    /// Reads a saved codec of this law and kind; None if the octets are not those of one.
    pub fn load(law: Law, kind: CodecKind, octets: &mut OctetReader<'_>) -> Option<AnyCodec>
        ensures loaded { (c : CodecState) (rest : List ℕ) → c.law ≡ law → c.kind ≡ kind → CodecFits c
            → octets.old ≡ saved_codec c ++ rest → (result ≡ Some c) × (octets.new ≡ rest) }
        ensures read { IfSome result (λ c. octets.old ≡ saved_codec c ++ octets.new) }
        ensures law { IfSome result (λ c. c.law ≡ law) }
        ensures kind { IfSome result (λ c. c.kind ≡ kind) }
    {
        let codec = Codec::load(kind, octets)?;
        Some(AnyCodec { law, codec })
    }
}

impl Codec {
    #[tactic(auto, unfolding(crate::specs::Saved::saved_codec))]
    fn save(&self, out: &mut Vec<u8>) -> Result<(), AllocError>
        ensures octets { (law : Law)
            → OnOk result (out.new.items ≡ out.old.items ++ saved_codec (state_of law self.now)) }
        ensures fits { (law : Law) → OnOk result (CodecFits (state_of law self.now)) }
    {
        match self {
            Codec::G711 => Ok(()),
            Codec::G16(encoder, decoder) => save_both(encoder, decoder, out),
            Codec::G24(encoder, decoder) => save_both(encoder, decoder, out),
            Codec::G32(encoder, decoder) => save_both(encoder, decoder, out),
            Codec::G40(encoder, decoder) => save_both(encoder, decoder, out),
        }
    }

    #[tactic(auto, unfolding(crate::specs::Saved::saved_codec))]
    fn load(kind: CodecKind, octets: &mut OctetReader<'_>) -> Option<Codec>
        ensures loaded { (c : CodecState) (rest : List ℕ) → c.kind ≡ kind → CodecFits c
            → octets.old ≡ saved_codec c ++ rest
            → (option_map (state_of c.law) result ≡ Some c) × (octets.new ≡ rest) }
        ensures read { (law : Law) → IfSome result (λ codec. octets.old
            ≡ saved_codec (state_of law codec) ++ octets.new) }
        ensures kind { (law : Law) → IfSome result (λ codec. (state_of law codec).kind ≡ kind) }
    {
        match kind {
            CodecKind::G711 => Some(Codec::G711),
            CodecKind::G16 => {
                let (encoder, decoder) = load_both(octets)?;
                Some(Codec::G16(encoder, decoder))
            }
            CodecKind::G24 => {
                let (encoder, decoder) = load_both(octets)?;
                Some(Codec::G24(encoder, decoder))
            }
            CodecKind::G32 => {
                let (encoder, decoder) = load_both(octets)?;
                Some(Codec::G32(encoder, decoder))
            }
            CodecKind::G40 => {
                let (encoder, decoder) = load_both(octets)?;
                Some(Codec::G40(encoder, decoder))
            }
        }
    }
}

fn save_both<R: Rate>(
    encoder: &Encoder<R>,
    decoder: &Decoder<R>,
    out: &mut Vec<u8>,
) -> Result<(), AllocError>
    ensures octets { OnOk result (out.new.items
        ≡ out.old.items ++ saved_variables encoder.now ++ saved_variables decoder.now) }
    ensures fits { OnOk result (VariablesFit encoder.now × VariablesFit decoder.now) }
{
    encoder.save(out)?;
    decoder.save(out)
}

fn load_both<R: Rate>(octets: &mut OctetReader<'_>) -> Option<(Encoder<R>, Decoder<R>)>
    ensures loaded { (encoder decoder : Variables) (rest : List ℕ) → VariablesFit encoder
        → VariablesFit decoder
        → octets.old ≡ (saved_variables encoder ++ saved_variables decoder) ++ rest
        → (result ≡ Some (encoder, decoder)) × (octets.new ≡ rest) }
    ensures read { IfSome result (λ both. octets.old
        ≡ (saved_variables both.0 ++ saved_variables both.1) ++ octets.new) }
{
    let encoder = Encoder::load(octets)?;
    let decoder = Decoder::load(octets)?;
    Some((encoder, decoder))
}
