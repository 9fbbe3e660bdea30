//! How a circuit is set up, and which packet times and prefills it may have (`CircuitConfig`).

ghost use Rattle.std.specs.Prelude.{◌≡◌, ◌≤◌, ◌<◌, ◌%◌, ◌↔◌, IsSome, IfSome};
ghost use Rattle.rtp_pack.specs.PacketTime.{IsPacketTime};
ghost use Rattle.gw_circuit.specs.Configuration.{IsWithinLimits};

use g726_codec::CodecKind;
use q421_line::Role;
use rtp_playout::MAX_PREFILL;

// Payload types have seven bits (RFC 3550, 5.1).
const MAX_PAYLOAD_TYPE: u8 = 127;

/// How a circuit is set up: its line, how its speech is coded at first, and how its datagrams are numbered.
#[derive(Clone, Copy, Debug, PartialEq, Eq)]
pub struct CircuitConfig {
    /// At which end of the circuit the line is.
    pub role: Role,
    /// How speech is coded in RTP at first.
    pub codec: CodecKind,
    /// The payload type at first, at most 127 (RFC 3551, section 6).
    pub payload_type: u8,
    /// How long a packet lasts: 10, 20 or 30 ms, of 8 samples each.
    pub ptime: u8,
    /// How many samples the playout waits before the first word, at most 1600.
    pub prefill: u16,
    /// The synchronization source of what is sent (RFC 3550, 5.1).
    pub ssrc: u32,
    /// The sequence number of the first datagram.
    pub sequence: u16,
    /// The timestamp of the first slot.
    pub timestamp: u32,
    ghost type_fits: { payload_type < 128 },
    ghost ptime_fits: { IsPacketTime ptime },
    ghost prefill_fits: { prefill ≤ 1600 },
}

impl CircuitConfig {
    /// A configuration with these values, or None unless the payload type is at most 127, a packet lasts 10,
    /// 20 or 30 ms, and the prefill is at most 1600.
    pub fn new(
        role: Role,
        codec: CodecKind,
        payload_type: u8,
        ptime: u8,
        prefill: u16,
        ssrc: u32,
        sequence: u16,
        timestamp: u32,
    ) -> Option<Self>
        ensures limits { IsSome result ↔ IsWithinLimits payload_type ptime prefill }
        ensures holds { IfSome result (λ c. (c.role ≡ role) × (c.codec ≡ codec)
            × (c.payload_type ≡ payload_type) × (c.ptime ≡ ptime) × (c.prefill ≡ prefill)
            × (c.ssrc ≡ ssrc) × (c.sequence ≡ sequence) × (c.timestamp ≡ timestamp)) }
    {
        if payload_type > MAX_PAYLOAD_TYPE
            || prefill > MAX_PREFILL
            || !matches!(ptime, 10 | 20 | 30)
        {
            return None;
        }
        Some(CircuitConfig {
            role,
            codec,
            payload_type,
            ptime,
            prefill,
            ssrc,
            sequence,
            timestamp,
        })
    }
}
