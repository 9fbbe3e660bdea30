//! Packets of SAToP (RFC 4553), written and read in place: the control word, and why one is refused.
#![tactic(auto)]

mod fields;
pub mod laws;
mod reading;
mod view;
mod writing;

ghost use Rattle.std.specs.Prelude.{◌≡◌};
ghost use Rattle.satop_packet.specs.Fault.{fault_number};

pub use reading::parse;
use thiserror::Error;
pub use view::SatopView;
pub use writing::write;

/// The octets of a fixed RTP header, which may precede the control word.
pub const RTP_LEN: usize = 12;

/// The octets of the control word.
pub const CONTROL_LEN: usize = 4;

/// The greatest payload that `write` accepts: 40 frames of an E1, 5 ms.
pub const MAX_PAYLOAD: usize = 1280;

/// The fields of the control word.
#[derive(Clone, Copy, Debug, PartialEq, Eq)]
pub struct Control {
    /// L: the payload is invalid, because the far end's line is down.
    pub lost: bool,
    /// R: the far end misses packets.
    pub remote: bool,
    /// Counts the packets, modulo 2^16.
    pub sequence: u16,
}

/// Why octets are not a packet.
///
/// If several apply, the first one listed is returned.
#[derive(Clone, Copy, Debug, PartialEq, Eq, Error)]
pub enum SatopFault {
    /// 1: fewer octets than the control word, and the RTP header if expected, have.
    #[error("fewer octets than the headers")]
    Short,
    /// 2: a fixed RTP header is expected, and the first octet is not that of one: version 2, without padding,
    /// extension and sources.
    #[error("no fixed RTP header")]
    NoRtp,
    /// 3: the control word does not begin with four zero bits.
    #[error("no control word")]
    NoControl,
    /// 4: LEN is neither 0 nor the number of all octets.
    #[error("another length")]
    OtherLength,
}

impl SatopFault {
    /// The number of the fault, 1 to 4, in order of precedence.
    pub fn number(self) -> u8
        ensures { result ≡ fault_number self }
    {
        match self {
            SatopFault::Short => 1,
            SatopFault::NoRtp => 2,
            SatopFault::NoControl => 3,
            SatopFault::OtherLength => 4,
        }
    }
}

/// The payload has more than 1280 octets.
#[derive(Clone, Copy, Debug, PartialEq, Eq, Error)]
#[error("the payload is too long")]
pub struct TooLong;
