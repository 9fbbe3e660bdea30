//! The length of a packet in time, the jitter and whose clock plays (`Timing`).

ghost use Rattle.std.specs.Prelude.{◌≡◌, ◌≤◌, ◌*◌};
ghost use Rattle.gw_satop.specs.Times.{IsPacketMicros};

// The microseconds of a frame.
const FRAME_US: u64 = 125;

/// How an emulated circuit is timed.
#[derive(Clone, Copy, Debug, PartialEq, Eq)]
pub struct Timing {
    // the microseconds of a packet, 125 to 5000
    pub(crate) packet: u64,
    // how many later packets are waited for
    pub(crate) jitter: u16,
    // this machine's clock plays, and not the packets
    pub(crate) own_clock: bool,
    ghost packet_is: { IsPacketMicros packet },
}

impl Timing {
    /// The timing of packets of this many frames, 1 to 40.
    pub fn new(frames: u64, jitter: u16, own_clock: bool) -> Timing
        requires least { 1 ≤ frames }
        requires most { frames ≤ 40 }
        ensures packet { result.packet ≡ 125 * frames }
        ensures jitter { result.jitter ≡ jitter }
        ensures own_clock { result.own_clock ≡ own_clock }
    {
        Timing {
            packet: FRAME_US * frames,
            jitter,
            own_clock,
        }
    }
}
