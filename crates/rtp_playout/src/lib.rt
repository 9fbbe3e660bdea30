//! The jitter buffer by timestamp (RFC 3550, 5.1): why a datagram is refused.
#![tactic(auto)]

pub mod laws;
mod playout;
mod window;

ghost use Rattle.std.specs.Prelude.{◌≡◌};
ghost use Rattle.rtp_playout.specs.Fault.{fault_number};

pub use playout::Playout;
use thiserror::Error;

/// The places of the window, from the next take.
pub const PLACES: usize = 3200;

/// The most words in an admitted datagram.
pub const MAX_WORDS: u128 = 1600;

/// The greatest prefill of a playout.
pub const MAX_PREFILL: u16 = 1600;

/// Why a datagram is refused.
///
/// If several apply, the first one listed is returned.
#[derive(Clone, Copy, Debug, PartialEq, Eq, Error)]
pub enum PlayoutFault {
    /// 11: another payload type than the expected one.
    #[error("another payload type")]
    PayloadType,
    /// 12: another SSRC than that of the datagrams admitted before.
    #[error("another source")]
    WrongSource,
    /// 13: one of the datagram's places still holds a word.
    #[error("a repeat")]
    Repeat,
    /// 14: the place of the first word has passed.
    #[error("too late")]
    Late,
    /// 15: more than 1600 words.
    #[error("too many words")]
    TooMany,
    /// 16: the last word is due after the window.
    #[error("too far ahead")]
    Full,
}

impl PlayoutFault {
    /// The number of the fault, 11 to 16, in order of precedence.
    pub fn number(self) -> u8
        ensures { result ≡ fault_number self }
    {
        match self {
            PlayoutFault::PayloadType => 11,
            PlayoutFault::WrongSource => 12,
            PlayoutFault::Repeat => 13,
            PlayoutFault::Late => 14,
            PlayoutFault::TooMany => 15,
            PlayoutFault::Full => 16,
        }
    }
}
