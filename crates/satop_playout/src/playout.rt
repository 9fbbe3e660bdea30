//! Whether a SAToP packet is late, a repeat or accepted, and what is played (`SatopPlayout`).

ghost use Rattle.std.specs.Prelude.{◌≡◌, ◌≤◌, ◌<◌, length, vec_capacity};
ghost use Rattle.satop_playout.specs.Plays.{number_after};

use crate::filling::{MOST_REPEATED, MULTIFRAME, replace};
use crate::slot::{PacketSlot, empty_slots};
use crate::{ArrivalFault, Settings};
use circular_buffer::HeapCircularBuffer;
use std::alloc::{AllocError, Global};

// From here on a difference of sequence numbers is negative.
const HALF: u16 = 1 << 15;

/// The jitter buffer of a SAToP stream: packets by sequence number, each played once in its turn, and octets
/// that replace those that are missing.
///
/// It takes memory for its window when it is made, and none afterwards.
#[derive(Drop)]
pub struct SatopPlayout {
    settings: Settings,
    // one for each packet of the window, in a ring
    slots: Vec<PacketSlot>,
    // the slot of the next packet
    head: usize,
    // the number of the next packet, once a stream has begun
    next: Option<u16>,
    reach: usize,
    // the last multiframe of octets given
    given: HeapCircularBuffer<u8>,
    // how many of those given last are filled, at most 2048
    filled: usize,
    ghost room: { length slots.items ≡ settings.window },
    ghost start: { head < settings.window },
    ghost near: { reach ≤ settings.window },
    ghost few: { filled ≤ 2048 },
    ghost memory: { (vec_capacity slots ≡ settings.window) × (given.capacity ≡ 512) },
}

impl SatopPlayout {
    ghost use Rattle.std.specs.Prelude.{◌≡◌, ◌≤◌, ◌<◌, ◌+◌, ◌++◌, ◌∷◌, [], ℕ, List, length, None, Some};
    ghost use Rattle.std.specs.Prelude.{IfOk, OnErr, MatchResult, min, if◌then◌else◌};
    ghost use Rattle.satop_playout.specs.declared.Settings.{Settings};
    ghost use Rattle.satop_playout.specs.Calls.{PlayoutCall, Begins, Arrives, Plays};
    ghost use Rattle.satop_playout.specs.Plays.{PlayoutState, refusal, ahead};
    ghost use Rattle.satop_playout.specs.Plays.{arrival_answer, is_there, play_octets, reach_after};
    ghost use Rattle.satop_playout.specs.Standing.{HasHistory, Represents, Wraps};
    ghost use Rattle.satop_playout.specs.Replacement.{fill_of};
    ghost use Rattle.circular_buffer.specs.Buffer.{keep_last};

    /// Takes memory for the window. No stream has begun.
    pub fn new(alloc: Global, settings: Settings) -> Result<SatopPlayout, AllocError>
        ensures { IfOk result (λ playout. HasHistory playout settings []) }
    {
        Ok(SatopPlayout {
            settings,
            slots: empty_slots(alloc, settings.window)?,
            head: 0,
            next: None,
            reach: 0,
            given: HeapCircularBuffer::with_capacity(alloc, MULTIFRAME)?,
            filled: 0,
        })
    }

    /// The settings of the playout.
    pub fn settings(&self) -> Settings
        ensures { result ≡ self.now.settings }
    {
        self.settings
    }

    /// A stream begins: the packet with this number is played next, and none is held.
    pub fn begin(&mut self, sequence: u16)
        ensures settings { self.new.settings ≡ self.old.settings }
        ensures stands { (settings : Settings) (calls : List PlayoutCall) → HasHistory self.old settings calls
            → HasHistory self.new settings (calls ++ Begins sequence ∷ []) }
    {
        for slot in self.slots.iter_mut() {
            slot.clear();
        }
        self.next = Some(sequence);
        self.reach = 0;
    }

    /// Accepts a packet of the stream, or returns why not.
    ///
    /// # Errors
    ///
    /// The first fault that applies; the playout is then unchanged.
    pub fn arrive(&mut self, sequence: u16, octets: &[u8]) -> Result<(), ArrivalFault>
        ensures settings { self.new.settings ≡ self.old.settings }
        ensures reply { (settings : Settings) (calls : List PlayoutCall) → HasHistory self.old settings calls
            → result ≡ arrival_answer settings calls sequence octets.now }
        ensures stands { (settings : Settings) (calls : List PlayoutCall) → HasHistory self.old settings calls
            → HasHistory self.new settings (calls ++ Arrives sequence octets.now ∷ []) }
        ensures err { OnErr result (self.new ≡ self.old) }
    {
        let place = self.admission(sequence, octets)?;
        let slot = self.slot_at(place);
        self.slots[slot].put(octets);
        self.reach = self.reach.max(place + 1);
        Ok(())
    }

    // The place of a packet behind the next one, or why it is refused.
    fn admission(&self, sequence: u16, octets: &[u8]) -> Result<usize, ArrivalFault>
        ensures why { (settings : Settings) (s : PlayoutState) → Represents self.now settings s
            → MatchResult result
            (λ place. (refusal settings s sequence octets.now ≡ None) × (place ≡ ahead s sequence))
            (λ fault. refusal settings s sequence octets.now ≡ Some fault) }
        ensures size { IfOk result (λ _. length octets.now ≡ self.now.settings.size) }
        ensures near { IfOk result (λ place. place < self.now.settings.window) }
    {
        if octets.len() != self.settings.size {
            return Err(ArrivalFault::OtherSize);
        }
        let Some(next) = self.next else {
            return Err(ArrivalFault::NotBegun);
        };
        let ahead = sequence.wrapping_sub(next);
        if ahead >= HALF {
            return Err(ArrivalFault::Late);
        }
        let place = usize::from(ahead);
        if place >= self.settings.window {
            return Err(ArrivalFault::TooFar);
        }
        if self.slots[self.slot_at(place)].is_held() {
            return Err(ArrivalFault::Repeat);
        }
        Ok(place)
    }

    // The slot of a place behind the next packet.
    fn slot_at(&self, place: usize) -> usize
        requires { place < self.now.settings.window }
        ensures { Wraps self.now.head place self.now.settings.window result }
    {
        let slot = self.head + place;
        if slot < self.settings.window {
            slot
        } else {
            slot - self.settings.window
        }
    }

    /// Plays the next packet: writes its octets, or those that replace it, and returns whether it was there.
    ///
    /// The room has as many octets as a packet.
    pub fn play(&mut self, room: &mut [u8]) -> bool
        requires { length room.old ≡ self.old.settings.size }
        ensures settings { self.new.settings ≡ self.old.settings }
        ensures there { (settings : Settings) (calls : List PlayoutCall) → HasHistory self.old settings calls
            → result ≡ is_there settings calls }
        ensures octets { (settings : Settings) (calls : List PlayoutCall) → HasHistory self.old settings calls
            → room.new ≡ play_octets settings calls }
        ensures stands { (settings : Settings) (calls : List PlayoutCall) → HasHistory self.old settings calls
            → HasHistory self.new settings (calls ++ Plays ∷ []) }
    {
        let is_there = self.slots[self.head].take(room);
        self.filled = self.fill(is_there, room);
        self.given.extend_from_slice(room);
        self.head = self.slot_after();
        self.next = number_after(self.next);
        self.reach = self.reach.saturating_sub(1);
        is_there
    }

    // Replaces a packet that is not there. Returns how many octets in a row are filled then, at most 2048.
    fn fill(&self, is_there: bool, room: &mut [u8]) -> usize
        requires { length room.old ≤ 1280 }
        ensures octets { (all : List ℕ) (count : ℕ) → self.now.given.items ≡ keep_last 512 all
            → self.now.filled ≡ min count 2048 → room.new
            ≡ (if is_there then room.old else fill_of self.now.settings.fill (length room.old) all count) }
        ensures filled { (count : ℕ) → self.now.filled ≡ min count 2048
            → result ≡ min (if is_there then 0 else count + length room.old) 2048 }
        ensures most { result ≤ 2048 }
    {
        if is_there {
            return 0;
        }
        replace(self.settings.fill, &self.given, self.filled, room);
        (self.filled + room.len()).min(MOST_REPEATED)
    }

    // The slot behind that of the next packet.
    fn slot_after(&self) -> usize
        ensures { Wraps self.now.head 1 self.now.settings.window result }
    {
        if self.head + 1 < self.settings.window {
            self.head + 1
        } else {
            0
        }
    }

    /// How many packets there are from the next one to the last one held, both counted; 0 if none is held.
    pub fn reach(&self) -> u16
        ensures { (settings : Settings) (calls : List PlayoutCall) → HasHistory self.now settings calls
            → result ≡ reach_after settings calls }
    {
        self.reach as u16
    }
}

// The sequence number after one, modulo 2^16.
fn number_after(number: Option<u16>) -> Option<u16>
    ensures { result ≡ number_after number }
{
    number.map(|n| n.wrapping_add(1))
}
