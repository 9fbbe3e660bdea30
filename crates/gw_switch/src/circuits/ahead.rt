//! The words of G.726 that circuits will play next, decoded by up to eight at once.
//!
//! Contracts see a circuit as if nothing were decoded before it is due: nothing here changes it.

use super::together::{FEWEST, LANES};
use super::{CIRCUITS, Circuits};
use arrayvec::ArrayVec;
use g726_lanes::Bundle;

// With these no octet waits longer than 20 us, on a core of 2.5 GHz.
const MOST_BUNDLES: u8 = 3;

impl Circuits {
    ghost use Rattle.std.specs.Prelude.{◌≡◌, ◌<◌, ◌≤◌, length};
    ghost use Rattle.g726_lanes.specs.Bundles.{AllFit};
    ghost use Rattle.gw_switch.specs.Together.{AreDecoders, AreDecoded};

    /// Decodes the next words of each circuit that has them at hand, with three bundles at most. The others
    /// follow 2 ms later, and keep that phase.
    pub(crate) fn decode_all(&mut self)
        ensures { self.new ≡ self.old }
    {
        let mut bundles: u8 = 0;
        for number in 0..CIRCUITS {
            if bundles >= MOST_BUNDLES {
                return;
            }
            let count = self.channels[usize::from(number)].circuit.words_at_hand();
            if count > 0 && self.decode_from(number, count) {
                bundles = bundles.saturating_add(1);
            }
        }
    }

    // Decodes as many words of this circuit, and with it of up to seven behind it that have as many at hand.
    // Returns whether it did.
    #[inline(never)]
    fn decode_from(&mut self, number: u8, count: usize) -> bool
        requires number { number < 30 }
        requires few { count ≤ 32 }
        ensures { self.new ≡ self.old }
    {
        if !self.have_enough(number, count) {
            return false;
        }
        let mut bundle = self.channels[usize::from(number)].circuit.bundle(count);
        let places = self.load_decoders(number, &mut bundle);
        if places.len() < FEWEST {
            return false;
        }
        bundle.decode();
        self.keep_octets(&places, &bundle);
        true
    }

    // Whether enough circuits from this place on have as many words at hand.
    fn have_enough(&self, first: u8, at_hand: usize) -> bool {
        let mut count: usize = 0;
        for number in first..CIRCUITS {
            if self.channels[usize::from(number)].circuit.words_at_hand() == at_hand {
                count = count.saturating_add(1);
            }
            if count >= FEWEST {
                return true;
            }
        }
        false
    }

    // Loads the lanes of a bundle, and returns the place of the circuit in each.
    fn load_decoders(&self, first: u8, bundle: &mut Bundle) -> ArrayVec<u8, 8>
        requires { AllFit bundle.old }
        ensures { AreDecoders self.now.channels.items result.items bundle.new }
    {
        let mut places = ArrayVec::new();
        for number in first..CIRCUITS {
            if places.len() >= LANES {
                return places;
            }
            self.load_next_decoder(number, &mut places, bundle);
        }
        places
    }

    // Loads the next lane with the decoder and the words of this circuit, if it has as many at hand.
    fn load_next_decoder(&self, number: u8, places: &mut ArrayVec<u8, 8>, bundle: &mut Bundle)
        requires number { number < 30 }
        requires room { length places.old.items < 8 }
        requires loaded { AreDecoders self.now.channels.items places.old.items bundle.old }
        ensures { AreDecoders self.now.channels.items places.new.items bundle.new }
    {
        let k = places.len();
        let circuit = &self.channels[usize::from(number)].circuit;
        if circuit.words_at_hand() != bundle.count || !circuit.load_words(k, bundle) {
            return;
        }
        places.push(number);
    }

    // Gives each circuit what was decoded in its lane.
    fn keep_octets(&mut self, places: &ArrayVec<u8, 8>, bundle: &Bundle)
        requires { AreDecoded self.old.channels.items places.now.items bundle.now }
        ensures { self.new ≡ self.old }
    {
        for k in 0..places.len() {
            let channel = &mut self.channels[usize::from(places.as_slice()[k])];
            channel.circuit.keep_octets(k, bundle);
        }
    }
}
