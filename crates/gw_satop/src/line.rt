//! What becomes of a received datagram, and what the jitter buffer plays next (`Receiver`).

ghost use Rattle.std.specs.Prelude.{◌≡◌};

use crate::pace::PlayClock;
use crate::packet::{PacketFault, octets_to_play, packet_in};
use g704_bits::BitAligner;
use gw_filter::align_all;
use satop_packet::Control;
use satop_playout::laws::plays_give_octets;
use satop_playout::{ArrivalFault, SatopPlayout, Settings};
use std::alloc::{AllocError, Global};

/// What became of a datagram.
#[derive(Clone, Copy, Debug, PartialEq, Eq)]
pub enum DatagramOutcome {
    /// Its packet is played in its turn.
    Accepted,
    /// A stream begins with its packet; this number is played next.
    Began(u16),
    /// Its packet is refused.
    Refused(ArrivalFault),
    /// It is no packet of the circuit.
    PacketFault(PacketFault),
}

/// The received half of an emulated circuit.
///
/// It takes memory for the jitter buffer when it is made, and none afterwards.
#[derive(Drop)]
pub struct Receiver {
    settings: Settings,
    // whether packets have an RTP header
    rtp: bool,
    playout: SatopPlayout,
    aligner: BitAligner,
    ghost same: { playout.settings ≡ settings },
}

impl Receiver {
    ghost use Rattle.std.specs.Prelude.{◌++◌, ◌∷◌, [], List, length, IfOk};
    ghost use Rattle.g704_framing.specs.Replies.{replies_after};
    ghost use Rattle.gw_filter.specs.Align.{align_reply};
    ghost use Rattle.satop_playout.specs.Calls.{PlayoutCall, Begins, Arrives, Plays};
    ghost use Rattle.satop_playout.specs.Plays.{arrival_answer, given_octets, is_there, play_octets};
    ghost use Rattle.satop_playout.specs.Plays.{reach_after};
    ghost use Rattle.gw_satop.specs.Line.{calls_for, calls_of_receipt, HasPlayed, played};
    ghost use Rattle.gw_satop.specs.Line.{receipt_by, receipt_of};
    ghost use Rattle.gw_satop.specs.Pace.{after_outcome, after_packet_outcome, beginning};
    ghost use Rattle.gw_satop.specs.Packets.{control_in, packet_in};

    /// A receiver before any datagram. `rtp` is whether packets have an RTP header.
    pub fn new(alloc: Global, settings: Settings, rtp: bool) -> Result<Receiver, AllocError>
        ensures settings { IfOk result (λ r. r.settings ≡ settings) }
        ensures rtp { IfOk result (λ r. r.rtp ≡ rtp) }
        ensures stands { IfOk result (λ r. HasPlayed r []) }
    {
        plays_give_octets();
        Ok(Receiver {
            settings,
            rtp,
            playout: SatopPlayout::new(alloc, settings)?,
            aligner: BitAligner::new(),
        })
    }

    /// Receives a datagram of the far end. Says what became of it.
    pub fn receive(&mut self, pace: &mut PlayClock, now: u64, datagram: &[u8]) -> DatagramOutcome
        ensures receipt { (calls : List PlayoutCall) → HasPlayed self.old calls
            → result ≡ receipt_of self.old.settings calls pace.old now
            (packet_in self.old.rtp self.old.settings.size datagram.now) }
        ensures stands { (calls : List PlayoutCall) → HasPlayed self.old calls
            → HasPlayed self.new (calls ++ calls_for self.old.settings.size result
            (packet_in self.old.rtp self.old.settings.size datagram.now)) }
        ensures given { (calls : List PlayoutCall) → given_octets self.old.settings
            (calls ++ calls_for self.old.settings.size result
            (packet_in self.old.rtp self.old.settings.size datagram.now))
            ≡ given_octets self.old.settings calls }
        ensures pace { pace.new ≡ after_outcome pace.old result
            (packet_in self.old.rtp self.old.settings.size datagram.now) now }
        ensures timing { pace.new.timing ≡ pace.old.timing }
        ensures time { pace.new.counted ≡ pace.old.counted }
        ensures settings { self.new.settings ≡ self.old.settings }
        ensures rtp { self.new.rtp ≡ self.old.rtp }
    {
        match packet_in(self.rtp, self.settings.size, datagram) {
            Ok(view) => {
                let octets = octets_to_play(self.settings.size, &view);
                self.arrive(pace, now, view.control().sequence, octets)
            }
            Err(fault) => DatagramOutcome::PacketFault(fault),
        }
    }

    /// The control word of a datagram, if it is a packet of the circuit.
    pub fn control(&self, datagram: &[u8]) -> Option<Control>
        ensures { result ≡ control_in (packet_in self.now.rtp self.now.settings.size datagram.now) }
    {
        match packet_in(self.rtp, self.settings.size, datagram) {
            Ok(view) => Some(view.control()),
            Err(_) => None,
        }
    }

    // A packet arrives. If it is refused a stream may begin with it.
    fn arrive(
        &mut self,
        pace: &mut PlayClock,
        now: u64,
        sequence: u16,
        octets: &[u8],
    ) -> DatagramOutcome
        ensures receipt { (calls : List PlayoutCall) → HasPlayed self.old calls
            → result ≡ receipt_by (arrival_answer self.old.settings calls sequence octets.now)
            (λ fault. beginning pace.old fault sequence now) }
        ensures stands { (calls : List PlayoutCall) → HasPlayed self.old calls
            → HasPlayed self.new (calls ++ calls_of_receipt result sequence octets.now) }
        ensures given { (calls : List PlayoutCall) → given_octets self.old.settings
            (calls ++ calls_of_receipt result sequence octets.now) ≡ given_octets self.old.settings calls }
        ensures pace { pace.new ≡ after_packet_outcome pace.old result sequence now }
        ensures timing { pace.new.timing ≡ pace.old.timing }
        ensures time { pace.new.counted ≡ pace.old.counted }
        ensures settings { self.new.settings ≡ self.old.settings }
        ensures rtp { self.new.rtp ≡ self.old.rtp }
    {
        plays_give_octets();
        match self.playout.arrive(sequence, octets) {
            Ok(()) => {
                pace.accept(now);
                DatagramOutcome::Accepted
            }
            Err(fault) => match pace.refuse(fault, sequence, now) {
                Some(first) => {
                    self.begin(first, sequence, octets);
                    pace.accept(now);
                    DatagramOutcome::Began(first)
                }
                None => DatagramOutcome::Refused(fault),
            },
        }
    }

    // A stream begins at this number, and a packet of it arrives.
    #[inline(never)]
    fn begin(&mut self, first: u16, sequence: u16, octets: &[u8])
        ensures stands { (calls : List PlayoutCall) → HasPlayed self.old calls
            → HasPlayed self.new (calls ++ Begins first ∷ Arrives sequence octets.now ∷ []) }
        ensures given { (calls : List PlayoutCall) → given_octets self.old.settings
            (calls ++ Begins first ∷ Arrives sequence octets.now ∷ [])
            ≡ given_octets self.old.settings calls }
        ensures settings { self.new.settings ≡ self.old.settings }
        ensures rtp { self.new.rtp ≡ self.old.rtp }
    {
        plays_give_octets();
        self.playout.begin(first);
        let _ = self.playout.arrive(sequence, octets);
    }

    /// The next packet is played: writes the octets of the time slots for it, and returns whether it was
    /// there. The room has as many octets as a packet.
    pub fn play(&mut self, room: &mut [u8]) -> bool
        requires { length room.old ≡ self.old.settings.size }
        ensures there { (calls : List PlayoutCall) → HasPlayed self.old calls
            → result ≡ is_there self.old.settings calls }
        ensures octets { (calls : List PlayoutCall) → HasPlayed self.old calls → room.new
            ≡ replies_after align_reply (given_octets self.old.settings calls)
            (play_octets self.old.settings calls) }
        ensures stands { (calls : List PlayoutCall) → HasPlayed self.old calls
            → HasPlayed self.new (calls ++ Plays ∷ []) }
        ensures played { (calls : List PlayoutCall) → HasPlayed self.old calls
            → played self.new.settings (calls ++ Plays ∷ []) ≡ played self.old.settings calls ++ room.new }
        ensures settings { self.new.settings ≡ self.old.settings }
        ensures rtp { self.new.rtp ≡ self.old.rtp }
    {
        plays_give_octets();
        let is_there = self.playout.play(room);
        align_all(&mut self.aligner, room);
        is_there
    }

    /// How many packets there are from the next one to the last that came, both counted; 0 if none waits.
    pub fn reach(&self) -> u16
        ensures { (calls : List PlayoutCall) → HasPlayed self.now calls
            → result ≡ reach_after self.now.settings calls }
    {
        self.playout.reach()
    }

    /// The octets of a packet.
    pub fn size(&self) -> usize
        ensures { result ≡ self.now.settings.size }
    {
        self.settings.size
    }
}
