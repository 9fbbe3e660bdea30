//! The jitter buffer of SAToP packets (RFC 4553, 6.2.2): its settings, and why a packet is refused.
#![tactic(auto)]

mod filling;
pub mod laws;
mod playout;
mod slot;

ghost use Rattle.std.specs.Prelude.{◌≡◌, ◌↔◌, IsSome, IfSome};
ghost use Rattle.satop_playout.specs.Calls.{IsSize, IsWindow, fault_number};

pub use playout::SatopPlayout;
use thiserror::Error;

/// The octets of a frame of an E1; a packet has whole frames.
pub const FRAME: usize = 32;

/// The most octets of a packet: 40 frames, 5 ms.
pub const MAX_SIZE: usize = 1280;

/// The most packets that may be waited for.
pub const MAX_WINDOW: usize = 1024;

/// What replaces a missing packet.
#[derive(Clone, Copy, Debug, PartialEq, Eq)]
pub enum Replacement {
    /// The octets one signalling multiframe (512 octets) before, so that alignment holds; ones if more than
    /// 2048 octets in a row would be replaced, so that nobody takes a long gap for a trunk.
    Again,
    /// Ones, as on a broken line.
    Ones,
}

/// How a playout is set up.
#[derive(Clone, Copy, Debug, PartialEq, Eq)]
pub struct Settings {
    /// The octets of a packet: 32 to 1280, a multiple of 32.
    pub size: usize,
    /// How many packets, from the one that is played next, may be waited for: 1 to 1024.
    pub window: usize,
    /// What replaces a missing packet.
    pub fill: Replacement,
    ghost size_is: { IsSize size },
    ghost window_is: { IsWindow window },
}

impl Settings {
    /// These settings, or None unless the size is 32 to 1280 and a multiple of 32, and the window 1 to 1024.
    pub fn new(size: usize, window: usize, fill: Replacement) -> Option<Self>
        ensures limits { IsSome result ↔ (IsSize size × IsWindow window) }
        ensures holds { IfSome result (λ s. (s.size ≡ size) × (s.window ≡ window) × (s.fill ≡ fill)) }
    {
        if !(FRAME..=MAX_SIZE).contains(&size) || size % FRAME != 0 {
            return None;
        }
        if !(1..=MAX_WINDOW).contains(&window) {
            return None;
        }
        Some(Settings { size, window, fill })
    }
}

/// Why a packet is refused.
///
/// If several apply, the first one listed is returned.
#[derive(Clone, Copy, Debug, PartialEq, Eq, Error)]
pub enum ArrivalFault {
    /// 1: another number of octets than that of the settings.
    #[error("another size")]
    OtherSize,
    /// 2: no stream has begun.
    #[error("no stream has begun")]
    NotBegun,
    /// 3: its turn is over: it is at least 2^15 packets ahead of the next one, modulo 2^16.
    #[error("too late")]
    Late,
    /// 4: it is after the window.
    #[error("too far ahead")]
    TooFar,
    /// 5: a packet with this number is held.
    #[error("a repeat")]
    Repeat,
}

impl ArrivalFault {
    /// The number of the fault, 1 to 5, in order of precedence.
    pub fn number(self) -> u8
        ensures { result ≡ fault_number self }
    {
        match self {
            ArrivalFault::OtherSize => 1,
            ArrivalFault::NotBegun => 2,
            ArrivalFault::Late => 3,
            ArrivalFault::TooFar => 4,
            ArrivalFault::Repeat => 5,
        }
    }
}
