//! How the octets of a trunk become packets: sequence number, timestamp, bit R (`Sender`).

ghost use Rattle.std.specs.Prelude.{◌≡◌, ◌++◌, ◌∷◌, ◌*◌, ◌<◌, ◌≤◌, [], nat_le, ◌-◌, length, take, drop};
ghost use Rattle.std.specs.Prelude.{IsTrue, IsFalse, IfSome, ◌^◌, ◌%◌, ◌+◌, ◌/◌};
ghost use Rattle.satop_playout.specs.Calls.{IsSize};
ghost use Rattle.gw_satop.specs.Sending.{header, packet_at, packets_of, sequence_at, timestamp_at};

use crate::log::History;
use arrayvec::ArrayVec;
use byteorder::{BigEndian, ByteOrder};
use gw_records::Log;
use satop_packet::{Control, RTP_LEN, write};
use satop_playout::FRAME;

// The first octet of a fixed RTP header: version 2, without padding, extension or sources.
const FIXED_RTP: u8 = 0x80;

/// How the packets of an emulated circuit begin.
#[derive(Clone, Copy, Debug, PartialEq, Eq)]
pub struct SenderSettings {
    /// The octets of the trunk in a packet: 32 to 1280, a multiple of 32.
    pub size: usize,
    /// The payload type of the RTP header, if packets have one.
    pub rtp: Option<u8>,
    /// The number of the first packet.
    pub sequence: u16,
    /// The time of the first octet, in frames of 125 microseconds.
    pub timestamp: u32,
    /// The synchronization source.
    pub ssrc: u32,
}

/// The sent half of an emulated circuit.
///
/// Its packets have the octets that came, in order, each once. The octets that came and the flag of each
/// packet are ghost data.
#[derive(Drop)]
pub struct Sender {
    start: SenderSettings,
    // of the next packet
    sequence: u16,
    timestamp: u32,
    held: ArrayVec<u8, 1280>,
    came: Log,
    log: History,
    ghost size_is: { IsSize start.size },
    ghost sequence_is: { sequence ≡ sequence_at start (length log.flags) },
    ghost timestamp_is: { timestamp ≡ timestamp_at start (length log.flags) },
    ghost held_are: { held.items ≡ drop (length log.flags * start.size) came.octets },
    ghost sent_all: { length log.flags * start.size ≤ length came.octets },
    ghost few: { length held.items ≤ start.size },
}

// A fixed RTP header without a marker.
fn header(payload_type: u8, sequence: u16, timestamp: u32, ssrc: u32) -> [u8; 12]
    ensures { result ≡ header (Some payload_type) sequence timestamp ssrc }
{
    let mut octets = [0u8; RTP_LEN];
    octets[0] = FIXED_RTP;
    octets[1] = payload_type;
    BigEndian::write_u16(&mut octets[2..4], sequence);
    BigEndian::write_u32(&mut octets[4..8], timestamp);
    BigEndian::write_u32(&mut octets[8..12], ssrc);
    octets
}

impl Sender {
    /// A sender before any octet.
    pub fn new(start: SenderSettings) -> Sender
        requires { IsSize start.size }
        ensures start { result.start ≡ start }
        ensures came { result.came.octets ≡ [] }
        ensures flags { result.log.flags ≡ [] }
    {
        Sender {
            start,
            sequence: start.sequence,
            timestamp: start.timestamp,
            held: ArrayVec::new(),
            came: Log::new(),
            log: History::new(),
        }
    }

    /// Takes octets from the front, as many as the next packet has room for, and returns how many.
    pub fn fill(&mut self, octets: &[u8]) -> usize
        ensures bound { result ≤ length octets.now }
        ensures came { self.new.came.octets ≡ self.old.came.octets ++ take result octets.now }
        ensures progress { length self.old.held.items < self.old.start.size
            → 0 < length octets.now → 0 < result }
        ensures flags { self.new.log.flags ≡ self.old.log.flags }
        ensures start { self.new.start ≡ self.old.start }
        ensures sent { packets_of self.new.start self.new.log.flags self.new.came.octets
            ≡ packets_of self.old.start self.old.log.flags self.old.came.octets }
    {
        let room = self.start.size - self.held.len();
        let n = room.min(octets.len());
        let _ = self.held.try_extend_from_slice(&octets[..n]);
        self.came.append(octets, n);
        n
    }

    /// Writes the next packet, if all its octets have come, and returns whether they have. `missing` is
    /// whether packets are missing at this end.
    pub fn packet(&mut self, missing: bool, out: &mut ArrayVec<u8, 1296>) -> bool
        ensures whole { result ≡ nat_le self.old.start.size (length self.old.held.items) }
        ensures flags { IsTrue result → self.new.log.flags ≡ self.old.log.flags ++ missing ∷ [] }
        ensures packet { IsTrue result → out.new.items
            ≡ packet_at self.old.start (length self.old.log.flags) missing self.old.held.items }
        ensures sent { IsTrue result → packets_of self.new.start self.new.log.flags self.new.came.octets
            ≡ packets_of self.old.start self.old.log.flags self.old.came.octets ++ out.new.items ∷ [] }
        ensures empty { IsTrue result → self.new.held.items ≡ [] }
        ensures none { IsFalse result → self.new ≡ self.old }
        ensures came { self.new.came.octets ≡ self.old.came.octets }
        ensures start { self.new.start ≡ self.old.start }
    {
        if self.held.len() < self.start.size {
            return false;
        }
        self.write_packet(missing, out);
        self.sequence = self.sequence.wrapping_add(1);
        self.timestamp = self
            .timestamp
            .wrapping_add((self.start.size / FRAME) as u32);
        self.held.clear();
        self.log.flag(missing);
        true
    }

    // Writes the SAToP packet of the octets that are held.
    fn write_packet(&self, missing: bool, out: &mut ArrayVec<u8, 1296>)
        ensures { out.new.items
            ≡ packet_at self.now.start (length self.now.log.flags) missing self.now.held.items }
    {
        let control = Control {
            lost: false,
            remote: missing,
            sequence: self.sequence,
        };
        // the octets fit, since a packet has at most 1280
        match self.start.rtp {
            Some(payload_type) => {
                let header = header(payload_type, self.sequence, self.timestamp, self.start.ssrc);
                let _ = write(&header, &control, self.held.as_slice(), out);
            }
            None => {
                let _ = write(&[], &control, self.held.as_slice(), out);
            }
        }
    }
}
