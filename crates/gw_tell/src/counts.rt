//! What is counted of the datagrams of each circuit, by what became of them (`DatagramCounts`).

ghost use Rattle.std.specs.Prelude.{◌≡◌, ◌<◌, ◌≤◌, ℕ, true};
ghost use Rattle.gw_tell.specs.Counts.{AreCountedAt, IsCounted, counts_at, told_at, nth, reasons};
ghost use Rattle.gw_tell.specs.Counts.{refused_after, is_of, highest_after, lost_after, transit_of, apart};
ghost use Rattle.gw_tell.specs.Counts.{jitter_after, stream_after};

use crate::header::rtp_header;
use g704_cas::CircuitNo;
use rtp_packet::Header;

// The numbers of the reasons for which datagrams are refused, in the order of their counts.
const REASONS: [u8; 12] = [1, 2, 3, 4, 5, 11, 12, 13, 14, 15, 16, 20];

// From this many on, a sequence number is behind another, and not ahead of it (RFC 3550, A.1).
const BEHIND: u16 = 32_768;

// The octets of the trunk in a sample, and how many samples there are until their number begins again at 0.
const SAMPLE: u64 = 32;

const ROUND: u64 = 4_294_967_296;

/// What the receiver of a stream counts of the packets that were accepted (RFC 3550, 6.4.1).
#[derive(Clone, Copy)]
pub struct StreamCounts {
    /// The synchronization source of the last one; none before the first.
    pub source: Option<u32>,
    /// The highest sequence number of this source.
    pub highest: u16,
    /// The arrival of the last one less its timestamp, in samples.
    pub transit: u32,
    /// The packets that are lost.
    pub lost: u64,
    /// Sixteen times the jitter, in samples.
    pub jitter: u64,
}

/// What became of the datagrams of a circuit.
#[derive(Clone, Copy)]
pub struct DatagramCounts {
    /// How many were accepted.
    pub accepted: u64,
    /// How many were refused for each reason.
    pub refused: [u64; 12],
    /// The stream of those that were accepted.
    pub stream: StreamCounts,
    /// Whether one has come since these counts were told.
    pub is_new: bool,
}

/// Those of a circuit to which nothing has come.
pub const NO_COUNTS: DatagramCounts = DatagramCounts {
    accepted: 0,
    refused: [0; 12],
    stream: StreamCounts {
        source: None,
        highest: 0,
        transit: 0,
        lost: 0,
        jitter: 0,
    },
    is_new: false,
};

// Whether a packet is of the source that is counted.
fn is_of(counted: Option<u32>, source: u32) -> bool
    ensures { result ≡ is_of counted source }
{
    match counted {
        None => false,
        Some(counted) => counted == source,
    }
}

// The highest sequence number behind a packet that is so far ahead.
fn highest_after(highest: u16, sequence: u16) -> u16
    ensures { result ≡ highest_after highest sequence }
{
    if sequence.wrapping_sub(highest) < BEHIND {
        sequence
    } else {
        highest
    }
}

// The packets that are lost behind one that is so far ahead.
fn lost_after(lost: u64, ahead: u16) -> u64
    ensures { result ≡ lost_after lost ahead }
{
    if ahead < BEHIND {
        lost.saturating_add(u64::from(ahead.saturating_sub(1)))
    } else {
        lost.saturating_sub(1)
    }
}

// The arrival of a packet less its timestamp, in samples.
fn transit_of(place: u64, timestamp: u32) -> u32
    ensures { result ≡ transit_of place timestamp }
{
    ((place / SAMPLE % ROUND) as u32).wrapping_sub(timestamp)
}

// How far apart two transits are.
fn apart(last: u32, transit: u32) -> u64
    ensures { result ≡ apart last transit }
{
    let d = u64::from(transit.wrapping_sub(last));
    d.min(ROUND - d)
}

// Sixteen times the jitter behind packets that are so far apart.
fn jitter_after(jitter: u64, d: u64) -> u64
    ensures { result ≡ jitter_after jitter d }
{
    (jitter - jitter.saturating_add(8) / 16).saturating_add(d)
}

// A stream behind a packet that was accepted at a place of the trunk.
fn stream_after(s: &StreamCounts, place: u64, header: &Header) -> StreamCounts
    ensures { result ≡ stream_after s.now place header.now }
{
    let transit = transit_of(place, header.timestamp);
    if !is_of(s.source, header.ssrc) {
        return StreamCounts {
            source: Some(header.ssrc),
            highest: header.sequence,
            transit,
            lost: s.lost,
            jitter: 0,
        };
    }
    StreamCounts {
        source: s.source,
        highest: highest_after(s.highest, header.sequence),
        transit,
        lost: lost_after(s.lost, header.sequence.wrapping_sub(s.highest)),
        jitter: jitter_after(s.jitter, apart(s.transit, transit)),
    }
}

// Counts a datagram that was refused for the reason of this number. (None has the number 0.)
fn count_refusal(refused: &mut [u64; 12], code: u8)
    ensures { (i : ℕ) → i < 12 → nth refused.new i ≡ refused_after (nth refused.old i) (nth reasons i) code }
{
    for i in 0..12usize {
        if REASONS[i] == code {
            refused[i] = refused[i].saturating_add(1);
        }
    }
}

impl DatagramCounts {
    // Counts a datagram that came at a place of the trunk, and was accepted, or refused for the reason of
    // this number.
    fn count(&mut self, place: u64, octets: &[u8], code: u8)
        ensures { AreCountedAt place octets.now code self.old self.new }
    {
        if code == 0 {
            self.accepted = self.accepted.saturating_add(1);
            self.stream = stream_after(&self.stream, place, &rtp_header(octets));
        }
        count_refusal(&mut self.refused, code);
        self.is_new = true;
    }
}

/// Counts a datagram of a circuit that came at a place of the trunk, and was accepted, or refused for the
/// reason of this number.
#[inline(never)]
pub fn count_datagram(
    counts: &mut [DatagramCounts; 30],
    circuit: CircuitNo,
    place: u64,
    octets: &[u8],
    code: u8,
)
    ensures { IsCounted circuit place octets.now code counts.old counts.new }
{
    counts[usize::from(circuit.get()) - 1].count(place, octets, code);
}

/// All counts are told: none is new any more.
pub fn set_told(counts: &mut [DatagramCounts; 30])
    ensures { (c : ℕ) → 1 ≤ c → c ≤ 30 → counts_at counts.new c ≡ told_at true (counts_at counts.old c) }
{
    for i in 0..30usize {
        counts[i].is_new = false;
    }
}
