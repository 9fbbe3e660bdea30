//! Encoder and decoder of a circuit by its codec's kind, G.711 or a rate of G.726 (`AnyCodec`).
ghost use Rattle.std.specs.Prelude.{◌≡◌, ◌≢◌, ◌<◌, ◌^◌, ℕ, List, [], ◌∷◌, ◌++◌, length};
ghost use Rattle.std.specs.List.{All};
ghost use Rattle.g726_codec.specs.Codec.{at_reset};
ghost use Rattle.g726_codec.specs.Kinds.{bits_of, rate_tables, word_by, octet_by, words_by, enc, dec};
ghost use Rattle.g726_codec.specs.Kinds.{codec_after, after_encoding, after_decoding};
ghost use Rattle.g726_codec.specs.Views.{kind_of, state_of};

mod saving;

use crate::{CodecKind, Decoder, Encoder, State};
use e1_g711::Law;
use g726_quant::{R16, R24, R32, R40, Word};
use std::marker::Model;

// An encoder and a decoder of each kind. G.711 has no state.
#[derive(Drop)]
enum Codec {
    G711,
    G16(Encoder<R16>, Decoder<R16>),
    G24(Encoder<R24>, Decoder<R24>),
    G32(Encoder<R32>, Decoder<R32>),
    G40(Encoder<R40>, Decoder<R40>),
}

impl Codec {
    fn reset(kind: CodecKind) -> Codec
        ensures { (law : Law) → state_of law result
            ≡ record { law = law; kind = kind; encoder = at_reset; decoder = at_reset } }
    {
        match kind {
            CodecKind::G711 => Codec::G711,
            CodecKind::G16 => Codec::G16(Encoder::reset(), Decoder::reset()),
            CodecKind::G24 => Codec::G24(Encoder::reset(), Decoder::reset()),
            CodecKind::G32 => Codec::G32(Encoder::reset(), Decoder::reset()),
            CodecKind::G40 => Codec::G40(Encoder::reset(), Decoder::reset()),
        }
    }

    fn kind(&self) -> CodecKind
        ensures { result ≡ kind_of self.now }
    {
        match self {
            Codec::G711 => CodecKind::G711,
            Codec::G16(_, _) => CodecKind::G16,
            Codec::G24(_, _) => CodecKind::G24,
            Codec::G32(_, _) => CodecKind::G32,
            Codec::G40(_, _) => CodecKind::G40,
        }
    }

    fn copy(&self) -> Codec
        ensures { (law : Law) → state_of law result ≡ state_of law self.now }
    {
        match self {
            Codec::G711 => Codec::G711,
            Codec::G16(encoder, decoder) => Codec::G16(encoder.copy(), decoder.copy()),
            Codec::G24(encoder, decoder) => Codec::G24(encoder.copy(), decoder.copy()),
            Codec::G32(encoder, decoder) => Codec::G32(encoder.copy(), decoder.copy()),
            Codec::G40(encoder, decoder) => Codec::G40(encoder.copy(), decoder.copy()),
        }
    }

    fn encoder(&self) -> &State
        requires { kind_of self.now ≢ CodecKind.G711 }
        ensures { (law : Law) → result.now ≡ (state_of law self.now).encoder }
    {
        match self {
            Codec::G711 => unreachable!(),
            Codec::G16(encoder, _) => encoder.state(),
            Codec::G24(encoder, _) => encoder.state(),
            Codec::G32(encoder, _) => encoder.state(),
            Codec::G40(encoder, _) => encoder.state(),
        }
    }

    fn set_encoder(&mut self, state: State)
        requires { kind_of self.old ≢ CodecKind.G711 }
        ensures { (law : Law) → state_of law self.new ≡ record (state_of law self.old) { encoder = state } }
    {
        match self {
            Codec::G711 => unreachable!(),
            Codec::G16(encoder, _) => *encoder = Encoder::of_state(state),
            Codec::G24(encoder, _) => *encoder = Encoder::of_state(state),
            Codec::G32(encoder, _) => *encoder = Encoder::of_state(state),
            Codec::G40(encoder, _) => *encoder = Encoder::of_state(state),
        }
    }

    fn decoder(&self) -> &State
        requires { kind_of self.now ≢ CodecKind.G711 }
        ensures { (law : Law) → result.now ≡ (state_of law self.now).decoder }
    {
        match self {
            Codec::G711 => unreachable!(),
            Codec::G16(_, decoder) => decoder.state(),
            Codec::G24(_, decoder) => decoder.state(),
            Codec::G32(_, decoder) => decoder.state(),
            Codec::G40(_, decoder) => decoder.state(),
        }
    }

    fn replace_decoder(&mut self, state: State) -> State
        requires { kind_of self.old ≢ CodecKind.G711 }
        ensures before { (law : Law) → result ≡ (state_of law self.old).decoder }
        ensures state { (law : Law) → state_of law self.new
            ≡ record (state_of law self.old) { decoder = state } }
    {
        match self {
            Codec::G711 => unreachable!(),
            Codec::G16(_, decoder) => decoder.replace(state),
            Codec::G24(_, decoder) => decoder.replace(state),
            Codec::G32(_, decoder) => decoder.replace(state),
            Codec::G40(_, decoder) => decoder.replace(state),
        }
    }

    #[inline(always)]
    fn encode(&mut self, law: Law, octet: u8) -> u8
        ensures bound { result < 2 ^ bits_of (kind_of self.old) }
        ensures word { result
            ≡ word_by (rate_tables (kind_of self.old)) law (state_of law self.old).encoder octet }
        ensures state { state_of law self.new ≡ after_encoding (state_of law self.old) (result ∷ []) }
    {
        match self {
            Codec::G711 => octet,
            Codec::G16(encoder, _) => encoder.encode(law, octet).get(),
            Codec::G24(encoder, _) => encoder.encode(law, octet).get(),
            Codec::G32(encoder, _) => encoder.encode(law, octet).get(),
            Codec::G40(encoder, _) => encoder.encode(law, octet).get(),
        }
    }

    fn encode_all(&mut self, law: Law, octets: &mut [u8])
        ensures len { length octets.new ≡ length octets.old }
        ensures fit { All (λ word. word < 2 ^ bits_of (kind_of self.old)) octets.new }
        ensures words { octets.new
            ≡ words_by (rate_tables (kind_of self.old)) law (state_of law self.old).encoder octets.old }
        ensures state { state_of law self.new ≡ after_encoding (state_of law self.old) octets.new }
    {
        match self {
            Codec::G711 => {}
            Codec::G16(encoder, _) => encoder.encode_all(law, octets),
            Codec::G24(encoder, _) => encoder.encode_all(law, octets),
            Codec::G32(encoder, _) => encoder.encode_all(law, octets),
            Codec::G40(encoder, _) => encoder.encode_all(law, octets),
        }
    }

    #[inline(always)]
    fn decode(&mut self, law: Law, word: u8) -> u8
        requires { word < 2 ^ bits_of (kind_of self.old) }
        ensures octet { result
            ≡ octet_by (rate_tables (kind_of self.old)) law (state_of law self.old).decoder word }
        ensures state { state_of law self.new ≡ after_decoding (state_of law self.old) (word ∷ []) }
    {
        match self {
            Codec::G711 => word,
            Codec::G16(_, decoder) => decoder.decode(law, Word::new(word).unwrap()),
            Codec::G24(_, decoder) => decoder.decode(law, Word::new(word).unwrap()),
            Codec::G32(_, decoder) => decoder.decode(law, Word::new(word).unwrap()),
            Codec::G40(_, decoder) => decoder.decode(law, Word::new(word).unwrap()),
        }
    }
}

/// An encoder and a decoder of any kind, in the trunk's law.
///
/// Contracts see the law, the kind, and the variables of the encoder and of the decoder.
#[derive(Drop)]
pub struct AnyCodec {
    law: Law,
    codec: Codec,
}

impl Model for AnyCodec {
    ghost use Rattle.g726_codec.specs.Kinds.{CodecState};
    ghost use Rattle.g726_codec.specs.Views.{state_of};

    ghost Value = { CodecState };

    ghost view = { λ a. state_of a.law a.codec };
}

impl AnyCodec {
    /// An encoder and a decoder of this kind, at reset.
    pub fn new(law: Law, kind: CodecKind) -> AnyCodec
        ensures { result ≡ codec_after law kind [] [] }
    {
        AnyCodec {
            law,
            codec: Codec::reset(kind),
        }
    }

    /// The same encoder and decoder once more.
    pub fn copy(&self) -> AnyCodec
        ensures { result ≡ self.now }
    {
        AnyCodec {
            law: self.law,
            codec: self.codec.copy(),
        }
    }

    /// The law.
    pub fn law(&self) -> Law
        ensures { result ≡ self.now.law }
    {
        self.law
    }

    /// The kind.
    pub fn kind(&self) -> CodecKind
        ensures { result ≡ self.now.kind }
    {
        self.codec.kind()
    }

    /// The encoder's state, at a rate of G.726.
    pub fn encoder(&self) -> &State
        requires { self.now.kind ≢ CodecKind.G711 }
        ensures { result.now ≡ self.now.encoder }
    {
        self.codec.encoder()
    }

    /// Replaces the encoder's state, at a rate of G.726.
    pub fn set_encoder(&mut self, state: State)
        requires { self.old.kind ≢ CodecKind.G711 }
        ensures { self.new ≡ record self.old { encoder = state } }
    {
        self.codec.set_encoder(state);
    }

    /// The decoder's state, at a rate of G.726.
    pub fn decoder(&self) -> &State
        requires { self.now.kind ≢ CodecKind.G711 }
        ensures { result.now ≡ self.now.decoder }
    {
        self.codec.decoder()
    }

    /// Replaces the decoder's state, at a rate of G.726, and returns the one before.
    pub fn replace_decoder(&mut self, state: State) -> State
        requires { self.old.kind ≢ CodecKind.G711 }
        ensures before { result ≡ self.old.decoder }
        ensures state { self.new ≡ record self.old { decoder = state } }
    {
        self.codec.replace_decoder(state)
    }

    /// The word of the next octet, below `2^bits`.
    ///
    /// An octet of G.711 is its own word.
    #[inline(always)]
    pub fn encode(&mut self, octet: u8) -> u8
        ensures bound { result < 2 ^ bits_of self.old.kind }
        ensures word { result ≡ word_by (rate_tables self.old.kind) self.old.law self.old.encoder octet }
        ensures state { self.new ≡ after_encoding self.old (result ∷ []) }
        ensures words { (law : Law) (kind : CodecKind) (octets words : List ℕ)
            → self.old ≡ codec_after law kind octets words
            → enc law kind (octets ++ octet ∷ []) ≡ enc law kind octets ++ result ∷ [] }
        ensures stands { (law : Law) (kind : CodecKind) (octets words : List ℕ)
            → self.old ≡ codec_after law kind octets words
            → self.new ≡ codec_after law kind (octets ++ octet ∷ []) words }
    {
        self.codec.encode(self.law, octet)
    }

    /// Replaces octets by their words, each below `2^bits`.
    pub fn encode_all(&mut self, octets: &mut [u8])
        ensures len { length octets.new ≡ length octets.old }
        ensures fit { All (λ word. word < 2 ^ bits_of self.old.kind) octets.new }
        ensures coded { octets.new
            ≡ words_by (rate_tables self.old.kind) self.old.law self.old.encoder octets.old }
        ensures state { self.new ≡ after_encoding self.old octets.new }
        ensures words { (law : Law) (kind : CodecKind) (given words : List ℕ)
            → self.old ≡ codec_after law kind given words
            → enc law kind (given ++ octets.old) ≡ enc law kind given ++ octets.new }
        ensures stands { (law : Law) (kind : CodecKind) (given words : List ℕ)
            → self.old ≡ codec_after law kind given words
            → self.new ≡ codec_after law kind (given ++ octets.old) words }
    {
        self.codec.encode_all(self.law, octets);
    }

    /// The octet of the next word, which is below `2^bits`.
    ///
    /// A word of G.711 is its own octet.
    #[inline(always)]
    pub fn decode(&mut self, word: u8) -> u8
        requires { word < 2 ^ bits_of self.old.kind }
        ensures octet { result ≡ octet_by (rate_tables self.old.kind) self.old.law self.old.decoder word }
        ensures state { self.new ≡ after_decoding self.old (word ∷ []) }
        ensures octets { (law : Law) (kind : CodecKind) (octets words : List ℕ)
            → self.old ≡ codec_after law kind octets words
            → dec law kind (words ++ word ∷ []) ≡ dec law kind words ++ result ∷ [] }
        ensures stands { (law : Law) (kind : CodecKind) (octets words : List ℕ)
            → self.old ≡ codec_after law kind octets words
            → self.new ≡ codec_after law kind octets (words ++ word ∷ []) }
    {
        self.codec.decode(self.law, word)
    }

    /// Resets encoder and decoder.
    pub fn reset(&mut self)
        ensures { self.new ≡ codec_after self.old.law self.old.kind [] [] }
    {
        self.codec = Codec::reset(self.codec.kind());
    }
}
