//! The octets that wait in circuits with G.726, coded by up to eight at once, and when words are decoded.
//!
//! Contracts see a circuit as if nothing waited: nothing here changes it.

use super::{CIRCUITS, Circuits};
use arrayvec::ArrayVec;
use g726_lanes::Bundle;

// With fewer circuits one after the other costs less.
pub(super) const FEWEST: usize = 3;

pub(super) const LANES: usize = 8;

impl Circuits {
    ghost use Rattle.std.specs.Prelude.{◌≡◌, ◌<◌, ◌≤◌, length};
    ghost use Rattle.gw_switch.specs.Together.{AreLoaded, AreCoded};

    /// Codes what waits in frame 0 of each multiframe, and in frame 8 before packets that are full in the
    /// frames behind it, and decodes in frame 4, so that no octet waits for both.
    pub(crate) fn work_together(&mut self, frame: u8)
        ensures { self.new ≡ self.old }
    {
        match frame {
            0 => self.code_all(),
            4 => self.decode_all(),
            8 => self.code_before_packets(),
            _ => {}
        }
    }

    // Codes what waits, if a packet is full in the next eight frames: with it the others, so that in frame 0
    // as many octets wait in each.
    fn code_before_packets(&mut self)
        ensures { self.new ≡ self.old }
    {
        if self.is_packet_due() {
            self.code_all();
        }
    }

    // Whether a packet of G.726 is full in the next eight frames.
    fn is_packet_due(&self) -> bool {
        for number in 0..CIRCUITS {
            if self.channels[usize::from(number)].circuit.fills_within(8) {
                return true;
            }
        }
        false
    }

    // Codes what waits in each circuit, in whole fours.
    fn code_all(&mut self)
        ensures { self.new ≡ self.old }
    {
        for number in 0..CIRCUITS {
            let count = self.channels[usize::from(number)].circuit.waiting();
            if count > 0 {
                self.code_from(number, count);
            }
        }
    }

    // Codes as many octets of this circuit, and of those behind it in which as many wait, by eight at once.
    #[inline(never)]
    fn code_from(&mut self, number: u8, count: usize)
        requires number { number < 30 }
        requires few { count ≤ 16 }
        ensures { self.new ≡ self.old }
    {
        if self.are_enough(number, count) {
            self.code_lanes(number, count);
        }
        let channel = &mut self.channels[usize::from(number)];
        if channel.circuit.waiting() > 0 {
            channel.circuit.code();
        }
    }

    // Whether as many octets wait in enough circuits from this place on.
    fn are_enough(&self, first: u8, waiting: usize) -> bool {
        let mut count: usize = 0;
        for number in first..CIRCUITS {
            if self.channels[usize::from(number)].circuit.waiting() == waiting {
                count = count.saturating_add(1);
            }
            if count >= FEWEST {
                return true;
            }
        }
        false
    }

    // Codes what waits in this circuit and in up to seven behind it, in lanes.
    fn code_lanes(&mut self, number: u8, count: usize)
        requires number { number < 30 }
        requires few { count ≤ 16 }
        ensures { self.new ≡ self.old }
    {
        let mut bundle = self.channels[usize::from(number)].circuit.bundle(count);
        let places = self.load_lanes(number, &mut bundle);
        if places.len() < FEWEST {
            return;
        }
        bundle.encode();
        self.store_lanes(&places, &bundle);
    }

    // Loads the lanes of a bundle, and returns the place of the circuit in each.
    fn load_lanes(&mut self, first: u8, bundle: &mut Bundle) -> ArrayVec<u8, 8>
        ensures loaded { AreLoaded self.new.channels.items result.items bundle.new }
        ensures kept { self.new ≡ self.old }
    {
        let mut places = ArrayVec::new();
        for number in first..CIRCUITS {
            if places.len() >= LANES {
                return places;
            }
            self.load_next(number, &mut places, bundle);
        }
        places
    }

    // Loads the next lane with what waits in this circuit, if it has as much to code.
    fn load_next(&mut self, number: u8, places: &mut ArrayVec<u8, 8>, bundle: &mut Bundle)
        requires number { number < 30 }
        requires room { length places.old.items < 8 }
        requires loaded { AreLoaded self.old.channels.items places.old.items bundle.old }
        ensures loaded { AreLoaded self.new.channels.items places.new.items bundle.new }
        ensures kept { self.new ≡ self.old }
    {
        let k = places.len();
        let channel = &mut self.channels[usize::from(number)];
        if channel.circuit.waiting() != bundle.count || !channel.circuit.load_lane(k, bundle) {
            return;
        }
        places.push(number);
    }

    // Gives each circuit what was coded in its lane.
    fn store_lanes(&mut self, places: &ArrayVec<u8, 8>, bundle: &Bundle)
        requires { AreCoded self.old.channels.items places.now.items bundle.now }
        ensures { self.new ≡ self.old }
    {
        for k in 0..places.len() {
            let channel = &mut self.channels[usize::from(places.as_slice()[k])];
            channel.circuit.store_lane(k, bundle);
        }
    }
}
