//! A codec whose decoder may be ahead of the words that were played (`AheadCodec`).

ghost use Rattle.std.specs.Prelude.{◌≡◌, ◌≢◌, ◌<◌, ◌^◌, ◌∷◌, [], length, true, All};
ghost use Rattle.g726_codec.specs.Kinds.{bits_of, rate_tables, words_by, octet_by, after_by, codec_after};
ghost use Rattle.g726_codec.specs.Kinds.{after_encoding, after_decoding};
ghost use Rattle.g726_lanes.specs.Lanes.{EachLane};
ghost use Rattle.g726_lanes.specs.Bundles.{AllFit};
ghost use Rattle.g726_lanes.specs.States.{variables};
ghost use Rattle.gw_circuit.specs.Ahead.{as_played, IsDecoderInLane, IsDecodedInLane};

use e1_g711::Law;
use g726_codec::{AnyCodec, CodecKind, State};
use g726_lanes::{Bundle, FRAMES};
use std::marker::Model;

// A codec, with words that were decoded before they are played, and their octets. Of G.711 there are none.
//
// Contracts see the codec as if only the words that were played were decoded.
#[derive(Drop)]
pub(crate) struct AheadCodec {
    codec: AnyCodec,
    // the decoder's state before the words
    base: State,
    words: [u8; 32],
    octets: [u8; 32],
    // how many words there are, and how many of them were played; once all were, the decoder is not ahead
    known: u8,
    played: u8,
}

impl Model for AheadCodec {
    ghost use Rattle.g726_codec.specs.Kinds.{CodecState};

    ghost Value = { CodecState };

    ghost use Rattle.std.specs.Prelude.{take};
    ghost use Rattle.gw_circuit.specs.Ahead.{as_played, IsKeptAhead};

    ghost view = { λ a. as_played a.codec a.base (take a.known a.words) a.played };

    ghost invariant = { λ a. IsKeptAhead a.codec a.base a.words a.octets a.known a.played };
}

// Decodes words from a state on.
fn decode_from(codec: &mut AnyCodec, base: &State, words: &[u8])
    requires kind { codec.old.kind ≢ CodecKind.G711 }
    requires words { All (λ word. word < 2 ^ bits_of codec.old.kind) words.now }
    ensures { codec.new
        ≡ record codec.old { decoder = after_by (rate_tables codec.old.kind) base.now words.now } }
{
    g726_codec::laws::decoders_continue();
    codec.replace_decoder(base.copy());
    for i in 0..words.len() {
        codec.decode(words[i]);
    }
}

// Takes a decoder that is ahead back to the words that were played.
fn go_back(codec: &mut AnyCodec, base: &State, words: &[u8], played: u8)
    requires kind { played < length words.now → codec.old.kind ≢ CodecKind.G711 }
    requires words { played < length words.now
        → All (λ word. word < 2 ^ bits_of codec.old.kind) words.now }
    ensures { codec.new ≡ as_played codec.old base.now words.now played }
{
    if usize::from(played) < words.len() {
        decode_from(codec, base, &words[..usize::from(played)]);
    }
}

impl AheadCodec {
    // A codec that is not ahead.
    pub(crate) fn new(codec: AnyCodec) -> AheadCodec
        ensures { result ≡ codec }
    {
        AheadCodec {
            codec,
            base: State::reset(),
            words: [0; FRAMES],
            octets: [0; FRAMES],
            known: 0,
            played: 0,
        }
    }

    pub(crate) fn law(&self) -> Law
        ensures { result ≡ self.now.law }
    {
        self.codec.law()
    }

    pub(crate) fn kind(&self) -> CodecKind
        ensures { result ≡ self.now.kind }
    {
        self.codec.kind()
    }

    pub(crate) fn reset(&mut self)
        ensures { self.new ≡ codec_after self.old.law self.old.kind [] [] }
    {
        self.codec.reset();
        self.known = 0;
    }

    pub(crate) fn encoder(&self) -> &State
        requires { self.now.kind ≢ CodecKind.G711 }
        ensures { result.now ≡ self.now.encoder }
    {
        self.codec.encoder()
    }

    pub(crate) fn set_encoder(&mut self, state: State)
        requires { self.old.kind ≢ CodecKind.G711 }
        ensures { self.new ≡ record self.old { encoder = state } }
    {
        self.codec.set_encoder(state);
    }

    pub(crate) fn encode_all(&mut self, octets: &mut [u8])
        ensures len { length octets.new ≡ length octets.old }
        ensures coded { octets.new
            ≡ words_by (rate_tables self.old.kind) self.old.law self.old.encoder octets.old }
        ensures state { self.new ≡ after_encoding self.old octets.new }
    {
        self.codec.encode_all(octets);
    }

    // A copy of the codec that is not ahead.
    pub(crate) fn copy(&self) -> AnyCodec
        ensures { result ≡ self.now }
    {
        let mut codec = self.codec.copy();
        go_back(
            &mut codec,
            &self.base,
            &self.words[..usize::from(self.known)],
            self.played,
        );
        codec
    }

    // The octet of the next word. The kind is that of the codec: if the caller knows it, nothing asks for it
    // again.
    #[inline(always)]
    pub(crate) fn decode(&mut self, kind: CodecKind, word: u8) -> u8
        requires kind { self.old.kind ≡ kind }
        requires word { word < 2 ^ bits_of kind }
        ensures octet { result ≡ octet_by (rate_tables kind) self.old.law self.old.decoder word }
        ensures state { self.new ≡ after_decoding self.old (word ∷ []) }
    {
        match kind {
            CodecKind::G711 => word,
            _ => self.play(word),
        }
    }

    // The octet of the next word: the one that is kept, if it is of this word.
    #[inline(always)]
    fn play(&mut self, word: u8) -> u8
        requires { word < 2 ^ bits_of self.old.kind }
        ensures octet { result ≡ octet_by (rate_tables self.old.kind) self.old.law self.old.decoder word }
        ensures state { self.new ≡ after_decoding self.old (word ∷ []) }
    {
        g726_codec::laws::decoders_continue();
        let next = usize::from(self.played);
        if self.played < self.known && self.words[next] == word {
            self.played += 1;
            return self.octets[next];
        }
        self.decode_now(word)
    }

    // The octet of the next word, by a step of the decoder.
    #[inline(never)]
    fn decode_now(&mut self, word: u8) -> u8
        requires { word < 2 ^ bits_of self.old.kind }
        ensures octet { result ≡ octet_by (rate_tables self.old.kind) self.old.law self.old.decoder word }
        ensures state { self.new ≡ after_decoding self.old (word ∷ []) }
    {
        let known = &self.words[..usize::from(self.known)];
        go_back(&mut self.codec, &self.base, known, self.played);
        self.known = 0;
        self.codec.decode(word)
    }

    // Whether a decoder of G.726 is not ahead.
    #[inline(always)]
    pub(crate) fn has_played_all(&self) -> bool {
        self.codec.kind() != CodecKind::G711 && self.played >= self.known
    }

    // Puts the decoder and these words into lane `k`, 0 to 7, and returns true, if it is one of the bundle's
    // kind and law that is not ahead.
    pub(crate) fn load_words(&self, k: usize, words: &[u8], bundle: &mut Bundle) -> bool
        requires lane { k < 8 }
        requires count { length words.now ≡ bundle.old.count }
        requires words { All (λ word. word < 2 ^ bits_of self.now.kind) words.now }
        ensures loaded { result ≡ true → IsDecoderInLane self.now bundle.new k }
        ensures fit { AllFit bundle.old → AllFit bundle.new }
        ensures states { EachLane (λ j. j ≢ k
            → variables bundle.new.lanes j ≡ variables bundle.old.lanes j) }
        ensures kept { (bundle.new.law ≡ bundle.old.law) × (bundle.new.kind ≡ bundle.old.kind) }
    {
        let kind = self.codec.kind();
        if kind == CodecKind::G711 || kind != bundle.kind || self.codec.law() != bundle.law {
            return false;
        }
        if self.played < self.known {
            return false;
        }
        bundle.load(k, self.codec.decoder(), words);
        true
    }

    // Keeps the words that were decoded in lane `k`, 0 to 7, with their octets.
    pub(crate) fn keep_octets(&mut self, k: usize, bundle: &Bundle)
        requires lane { k < 8 }
        requires decoded { IsDecodedInLane self.old bundle.now k }
        ensures { self.new ≡ self.old }
    {
        g726_codec::laws::decoders_continue();
        if self.codec.kind() == CodecKind::G711 || self.played < self.known {
            return;
        }
        self.base = self.codec.replace_decoder(bundle.state(k));
        self.words = bundle.words(k);
        self.octets = bundle.octets(k);
        self.known = bundle.count as u8;
        self.played = 0;
    }
}
