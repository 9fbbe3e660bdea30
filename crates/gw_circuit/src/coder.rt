//! A codec with the packet that it fills, whose last octets may wait to be coded (`Coder`).

ghost use Rattle.std.specs.Prelude.{◌≡◌, ◌≢◌, ◌≤◌, ◌<◌, ◌^◌, ◌+◌, ◌++◌, ◌∷◌, [], length, take};
ghost use Rattle.std.specs.Prelude.{drop, true, All};
ghost use Rattle.g726_codec.specs.Kinds.{bits_of, rate_tables, octet_by, codec_after};
ghost use Rattle.g726_codec.specs.Kinds.{after_encoding, after_decoding};
ghost use Rattle.g726_lanes.specs.Lanes.{EachLane};
ghost use Rattle.g726_lanes.specs.Bundles.{lane_octets, AllFit};
ghost use Rattle.g726_lanes.specs.States.{variables};
ghost use Rattle.gw_circuit.specs.Ahead.{IsDecoderInLane, IsDecodedInLane};
ghost use Rattle.gw_circuit.specs.Coder.{next_word, next_words, with_word, empty_packet, as_coded};
ghost use Rattle.gw_circuit.specs.Coder.{IsInLane, IsCodedInLane};

use crate::ahead::AheadCodec;
use arrayvec::ArrayVec;
use e1_g711::Law;
use g726_codec::{AnyCodec, CodecKind};
use g726_lanes::Bundle;
use std::marker::Model;
use std::mem;

// A codec with the words of the packet that is not full yet. An octet received may wait, since its word is
// needed only once the packet is full.
//
// Contracts see the codec and the words as if nothing waited.
#[derive(Drop)]
pub(crate) struct Coder {
    codec: AheadCodec,
    // words, and behind them the octets that wait
    packet: ArrayVec<u8, 240>,
    // how many words there are
    coded: u8,
}

impl Model for Coder {
    ghost use Rattle.gw_circuit.specs.Coder.{CodedPacket};

    ghost Value = { CodedPacket };

    ghost use Rattle.std.specs.Prelude.{◌≤◌, length};
    ghost use Rattle.gw_circuit.specs.Coder.{as_coded};

    ghost view = { λ c. as_coded c.codec c.packet.items c.coded };

    ghost invariant = { λ c. c.coded ≤ length c.packet.items };
}

// Codes what is behind this many words.
fn code_rest(codec: &mut AheadCodec, packet: &mut ArrayVec<u8, 240>, coded: u8)
    requires { coded ≤ length packet.old.items }
    ensures { record { codec = codec.new; packet = packet.new.items }
        ≡ as_coded codec.old packet.old.items coded }
{
    codec.encode_all(&mut packet.as_mut_slice()[usize::from(coded)..]);
}

// Codes the octets of a slice that are behind this many words.
fn code_behind(codec: &mut AheadCodec, octets: &mut [u8], coded: u8)
    requires { coded ≤ length octets.old }
    ensures octets { octets.new ≡ take coded octets.old ++ next_words codec.old (drop coded octets.old) }
    ensures len { length octets.new ≡ length octets.old }
    ensures state { codec.new ≡ after_encoding codec.old (next_words codec.old (drop coded octets.old)) }
{
    codec.encode_all(&mut octets[usize::from(coded)..]);
}

// Codes the octets of a slice that are behind this many words, and before this place.
fn code_before(codec: &mut AheadCodec, octets: &mut [u8], coded: u8, end: usize)
    requires begin { coded ≤ end }
    requires end { end ≤ length octets.old }
    ensures octets { octets.new ≡ take coded (take end octets.old)
        ++ (next_words codec.old (drop coded (take end octets.old)) ++ drop end octets.old) }
    ensures len { length octets.new ≡ length octets.old }
    ensures state { codec.new
        ≡ after_encoding codec.old (next_words codec.old (drop coded (take end octets.old))) }
{
    code_behind(codec, &mut octets[..end], coded);
}

// Puts words behind this many.
fn put_words(packet: &mut ArrayVec<u8, 240>, coded: u8, words: &[u8])
    requires { length packet.old.items ≡ coded + length words.now }
    ensures { packet.new.items ≡ take coded packet.old.items ++ words.now }
{
    packet.as_mut_slice()[usize::from(coded)..].copy_from_slice(words);
}

impl Coder {
    // At reset, with no word.
    pub(crate) fn new(law: Law, kind: CodecKind) -> Coder
        ensures { result ≡ empty_packet law kind }
    {
        g726_codec::laws::codecs_continue();
        Coder {
            codec: AheadCodec::new(AnyCodec::new(law, kind)),
            packet: ArrayVec::new(),
            coded: 0,
        }
    }

    // With these words.
    pub(crate) fn of_words(codec: AnyCodec, packet: ArrayVec<u8, 240>) -> Coder
        ensures { result ≡ record { codec = codec; packet = packet.items } }
    {
        g726_codec::laws::codecs_continue();
        let coded = packet.len() as u8;
        Coder {
            codec: AheadCodec::new(codec),
            packet,
            coded,
        }
    }

    // Begins again at reset, with no word.
    pub(crate) fn reset(&mut self)
        ensures { self.new ≡ empty_packet self.old.codec.law self.old.codec.kind }
    {
        g726_codec::laws::codecs_continue();
        self.codec.reset();
        self.packet.clear();
        self.coded = 0;
    }

    // How many words the packet has.
    #[inline(always)]
    pub(crate) fn len(&self) -> usize
        ensures value { result ≡ length self.now.packet }
        ensures most { result ≤ 240 }
    {
        g726_codec::laws::codecs_continue();
        self.packet.len()
    }

    // Hears an octet, whose word the packet gets.
    #[inline(always)]
    pub(crate) fn hear(&mut self, octet: u8)
        requires { length self.old.packet < 240 }
        ensures state { self.new ≡ with_word self.old (next_word self.old.codec octet) }
        ensures bound { next_word self.old.codec octet < 2 ^ bits_of self.old.codec.kind }
    {
        g726_codec::laws::codecs_continue();
        self.packet.push(octet);
    }

    // Hears the last octet of a packet, and returns the words of the packet. The next packet is empty.
    pub(crate) fn fill(&mut self, octet: u8) -> ArrayVec<u8, 240>
        requires { length self.old.packet < 240 }
        ensures words { result.items ≡ self.old.packet ++ next_word self.old.codec octet ∷ [] }
        ensures state { self.new ≡ record {
          codec = (with_word self.old (next_word self.old.codec octet)).codec;
          packet = [];
        } }
        ensures bound { next_word self.old.codec octet < 2 ^ bits_of self.old.codec.kind }
    {
        g726_codec::laws::codecs_continue();
        self.packet.push(octet);
        code_rest(&mut self.codec, &mut self.packet, self.coded);
        self.coded = 0;
        mem::replace(&mut self.packet, ArrayVec::new())
    }

    // Codes what waits, but for the last octets, this many.
    pub(crate) fn code(&mut self, last: usize)
        ensures { self.new ≡ self.old }
    {
        g726_codec::laws::codecs_continue();
        let end = self.packet.len().saturating_sub(last);
        if usize::from(self.coded) < end {
            code_before(&mut self.codec, self.packet.as_mut_slice(), self.coded, end);
            self.coded = end as u8;
        }
    }

    // How many octets of G.726 wait.
    #[inline(always)]
    pub(crate) fn waiting(&self) -> usize {
        match self.codec.kind() {
            CodecKind::G711 => 0,
            _ => self.packet.len() - usize::from(self.coded),
        }
    }

    // Puts the encoder and the last octets into lane `k`, 0 to 7, and returns true, if as many wait as the
    // bundle has of each circuit, for an encoder of its kind and law. The octets before them are coded first.
    pub(crate) fn load_lane(&mut self, k: usize, bundle: &mut Bundle) -> bool
        requires { k < 8 }
        ensures state { self.new ≡ self.old }
        ensures loaded { result ≡ true → IsInLane self.new bundle.new k }
        ensures states { EachLane (λ j. j ≢ k
            → variables bundle.new.lanes j ≡ variables bundle.old.lanes j) }
        ensures octets { EachLane (λ j. j ≢ k → lane_octets bundle.new j ≡ lane_octets bundle.old j) }
        ensures kept { (bundle.new.law ≡ bundle.old.law) × (bundle.new.kind ≡ bundle.old.kind) }
    {
        let kind = self.codec.kind();
        if kind == CodecKind::G711 || kind != bundle.kind || self.codec.law() != bundle.law {
            return false;
        }
        self.code(bundle.count);
        let octets = &self.packet.as_slice()[usize::from(self.coded)..];
        if octets.len() != bundle.count {
            return false;
        }
        bundle.load(k, self.codec.encoder(), octets);
        true
    }

    // Takes the state of the encoder and its words from lane `k`, 0 to 7, where they were coded.
    pub(crate) fn store_lane(&mut self, k: usize, bundle: &Bundle)
        requires lane { k < 8 }
        requires coded { IsCodedInLane self.old bundle.now k }
        ensures { self.new ≡ self.old }
    {
        g726_codec::laws::codecs_continue();
        let from = usize::from(self.coded);
        if self.codec.kind() == CodecKind::G711 || self.packet.len() != from + bundle.count {
            return;
        }
        self.codec.set_encoder(bundle.state(k));
        let row = bundle.octets(k);
        put_words(&mut self.packet, self.coded, &row[..bundle.count]);
        self.coded = self.packet.len() as u8;
    }

    // A copy of the codec and of the words.
    pub(crate) fn copy(&self) -> (AnyCodec, ArrayVec<u8, 240>)
        ensures codec { result.0 ≡ self.now.codec }
        ensures words { result.1.items ≡ self.now.packet }
    {
        let mut codec = self.codec.copy();
        let mut packet = copy_of(&self.packet);
        codec.encode_all(&mut packet.as_mut_slice()[usize::from(self.coded)..]);
        (codec, packet)
    }

    // The octet of the next word. The kind is that of the codec: if the caller knows it, nothing asks for it
    // again.
    #[inline(always)]
    pub(crate) fn decode(&mut self, kind: CodecKind, word: u8) -> u8
        requires kind { self.old.codec.kind ≡ kind }
        requires word { word < 2 ^ bits_of kind }
        ensures octet { result
            ≡ octet_by (rate_tables kind) self.old.codec.law self.old.codec.decoder word }
        ensures state { self.new ≡ record self.old { codec = after_decoding self.old.codec (word ∷ []) } }
    {
        self.codec.decode(kind, word)
    }

    // Whether a decoder of G.726 is not ahead.
    #[inline(always)]
    pub(crate) fn has_played_all(&self) -> bool {
        self.codec.has_played_all()
    }

    // Puts the decoder and these words into lane `k`, 0 to 7, and returns true, if it is one of the bundle's
    // kind and law that is not ahead.
    pub(crate) fn load_words(&self, k: usize, words: &[u8], bundle: &mut Bundle) -> bool
        requires lane { k < 8 }
        requires count { length words.now ≡ bundle.old.count }
        requires words { All (λ word. word < 2 ^ bits_of self.now.codec.kind) words.now }
        ensures loaded { result ≡ true → IsDecoderInLane self.now.codec bundle.new k }
        ensures fit { AllFit bundle.old → AllFit bundle.new }
        ensures states { EachLane (λ j. j ≢ k
            → variables bundle.new.lanes j ≡ variables bundle.old.lanes j) }
        ensures kept { (bundle.new.law ≡ bundle.old.law) × (bundle.new.kind ≡ bundle.old.kind) }
    {
        self.codec.load_words(k, words, bundle)
    }

    // Keeps the words that were decoded in lane `k`, 0 to 7, with their octets.
    pub(crate) fn keep_octets(&mut self, k: usize, bundle: &Bundle)
        requires lane { k < 8 }
        requires decoded { IsDecodedInLane self.old.codec bundle.now k }
        ensures { self.new ≡ self.old }
    {
        self.codec.keep_octets(k, bundle);
    }
}

// The same items once more.
fn copy_of(packet: &ArrayVec<u8, 240>) -> ArrayVec<u8, 240>
    ensures { result.items ≡ packet.now.items }
{
    ArrayVec::try_from(packet.as_slice()).unwrap()
}
