//! What a circuit's encoder has still to code, and what its decoder can decode before it is due, in a lane
//! alongside other circuits.
//!
//! Contracts see a circuit as if nothing waited and nothing were decoded early: nothing here changes it.

ghost use Rattle.std.specs.Prelude.{◌≡◌, ◌≢◌, ◌<◌, ◌≤◌, true};
ghost use Rattle.g726_lanes.specs.Lanes.{EachLane};
ghost use Rattle.g726_lanes.specs.Bundles.{lane_octets, AllFit};
ghost use Rattle.g726_lanes.specs.States.{variables};
ghost use Rattle.gw_circuit.specs.Ahead.{IsDecoderInLane, IsDecodedInLane};
ghost use Rattle.gw_circuit.specs.Coder.{IsInLane, IsCodedInLane};

use crate::circuit::Circuit;
use g726_lanes::Bundle;

// How many octets are encoded at once at most.
const MOST: usize = 16;

impl Circuit {
    /// How many octets of G.726 wait to be coded, in whole fours, and sixteen if more wait.
    #[inline(always)]
    pub fn waiting(&self) -> usize
        ensures { result ≤ 16 }
    {
        let waiting = self.speech.coder.waiting();
        (waiting - waiting % 4).min(MOST)
    }

    /// Whether octets of G.726 wait, and the packet is full after this many slots or before.
    #[inline(always)]
    pub fn fills_within(&self, slots: usize) -> bool {
        self.speech.fills_within(slots)
    }

    /// A bundle for encoders or decoders of the circuit's law and kind, with this many octets or words each.
    pub fn bundle(&self, count: usize) -> Bundle
        requires { count ≤ 32 }
        ensures { AllFit result }
    {
        Bundle::new(self.law, self.speech.kind(), count)
    }

    /// Codes what waits.
    pub fn code(&mut self)
        ensures { self.new ≡ self.old }
    {
        self.speech.coder.code(0);
    }

    /// Puts the encoder and the last octets into lane `k`, 0 to 7, and returns true, if as many wait as the
    /// bundle has of each circuit, for an encoder of its kind and law.
    pub fn load_lane(&mut self, k: usize, bundle: &mut Bundle) -> bool
        requires { k < 8 }
        ensures state { self.new ≡ self.old }
        ensures loaded { result ≡ true → IsInLane self.new.speech.coder bundle.new k }
        ensures states { EachLane (λ j. j ≢ k
            → variables bundle.new.lanes j ≡ variables bundle.old.lanes j) }
        ensures octets { EachLane (λ j. j ≢ k → lane_octets bundle.new j ≡ lane_octets bundle.old j) }
        ensures kept { (bundle.new.law ≡ bundle.old.law) × (bundle.new.kind ≡ bundle.old.kind) }
    {
        self.speech.coder.load_lane(k, bundle)
    }

    /// Takes the state of the encoder and its words from lane `k`, 0 to 7, where they were coded.
    pub fn store_lane(&mut self, k: usize, bundle: &Bundle)
        requires lane { k < 8 }
        requires coded { IsCodedInLane self.old.speech.coder bundle.now k }
        ensures { self.new ≡ self.old }
    {
        self.speech.coder.store_lane(k, bundle);
    }

    /// How many words of G.726 are at hand to be decoded before they are due: 32, 16 or none.
    #[inline(always)]
    pub fn words_at_hand(&self) -> usize
        ensures { result ≤ 32 }
    {
        self.speech.words_at_hand()
    }

    /// Puts the decoder, and the words that are due next, into lane `k`, 0 to 7, and returns true, if as many
    /// are at hand as the bundle has of each circuit, for a decoder of its kind and law that is not ahead.
    pub fn load_words(&self, k: usize, bundle: &mut Bundle) -> bool
        requires { k < 8 }
        ensures loaded { result ≡ true → IsDecoderInLane self.now.speech.coder.codec bundle.new k }
        ensures fit { AllFit bundle.old → AllFit bundle.new }
        ensures states { EachLane (λ j. j ≢ k
            → variables bundle.new.lanes j ≡ variables bundle.old.lanes j) }
        ensures kept { (bundle.new.law ≡ bundle.old.law) × (bundle.new.kind ≡ bundle.old.kind) }
    {
        self.speech.load_words(k, bundle)
    }

    /// Keeps the words that were decoded in lane `k`, 0 to 7, with their octets, until they are due.
    pub fn keep_octets(&mut self, k: usize, bundle: &Bundle)
        requires lane { k < 8 }
        requires decoded { IsDecodedInLane self.old.speech.coder.codec bundle.now k }
        ensures { self.new ≡ self.old }
    {
        self.speech.coder.keep_octets(k, bundle);
    }
}
