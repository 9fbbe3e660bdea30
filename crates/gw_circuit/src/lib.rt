//! One telephone circuit: its status, and why a datagram is dropped or a codec command refused.
#![tactic(auto)]

mod ahead;
mod circuit;
mod coder;
mod config;
pub mod laws;
pub mod payload_types;
mod speech;

ghost use Rattle.std.specs.Prelude.{◌≡◌};
ghost use Rattle.gw_circuit.specs.Faults.{code_of, fault_number};

use arrayvec::ArrayVec;
pub use circuit::Circuit;
pub use config::CircuitConfig;
use e1_g711::Law;
use g726_codec::CodecKind;
use q421_line::{Pair, Role, State};
use rtp_packet::RtpFault;
use rtp_playout::PlayoutFault;
use thiserror::Error;

/// A datagram that is sent.
pub type Datagram = ArrayVec<u8, 252>;

/// Why a datagram is dropped. If several apply, it is the first one listed.
#[derive(Clone, Copy, Debug, PartialEq, Eq, Error)]
pub enum Dropped {
    /// 20: the path is not open.
    #[error("the path is not open")]
    NotOpen,
    /// 1 to 5: the octets are no datagram of RTP.
    #[error("{0}")]
    Rtp(RtpFault),
    /// 11 to 16: the playout refuses the datagram.
    #[error("{0}")]
    Playout(PlayoutFault),
}

impl Dropped {
    /// The number of the refusal: 20, or that of its fault.
    pub fn code(self) -> u8
        ensures { result ≡ code_of self }
    {
        match self {
            Dropped::NotOpen => 20,
            Dropped::Rtp(fault) => fault.number(),
            Dropped::Playout(fault) => fault.number(),
        }
    }
}

/// Why a codec is refused.
#[derive(Clone, Copy, Debug, PartialEq, Eq, Error)]
pub enum CodecFault {
    /// 31: the codec cannot have this payload type on this trunk (RFC 3551, section 6).
    #[error("no payload type of the codec")]
    PayloadType,
}

impl CodecFault {
    /// The number of the fault, 31.
    pub fn number(self) -> u8
        ensures { result ≡ fault_number self }
    {
        match self {
            CodecFault::PayloadType => 31,
        }
    }
}

/// The status of a circuit.
#[derive(Clone, Copy, Debug, PartialEq, Eq)]
pub struct Status {
    /// At which end of the circuit its line is.
    pub role: Role,
    /// The law of the trunk.
    pub law: Law,
    /// How speech is coded in RTP now.
    pub codec: CodecKind,
    /// The payload type now.
    pub payload_type: u8,
    /// The state of the line.
    pub state: State,
    /// The pair of bits that the line sends.
    pub sent: Pair,
    /// The last pair that it recognised.
    pub recognised: Option<Pair>,
    /// The datagrams that were sent, at most 2^32 - 1 as the two counts below.
    pub sent_count: u32,
    /// The datagrams that were admitted.
    pub received: u32,
    /// The datagrams that were dropped.
    pub dropped: u32,
}
