//! Line signals of one circuit (ITU-T Q.421): roles, states, commands and their refusals.
//!
//! It uses bits a and b of the circuit's nibble of time slot 16.
#![tactic(auto)]

ghost use Rattle.std.specs.Prelude.{◌≡◌};
ghost use Rattle.q421_line.specs.Commands.{fault_number};

use thiserror::Error;

pub mod laws;
mod pairs;
mod recognition;
mod signalling;
mod tables;

pub use pairs::Pair;
pub use signalling::Line;

/// The end of a circuit at which a line is.
///
/// Circuits are one-way.
#[derive(Clone, Copy, Debug, PartialEq, Eq)]
pub enum Role {
    /// The end that seizes: it sends forward signals and receives backward ones.
    Outgoing,
    /// The end that is seized: it sends backward signals and receives forward ones.
    Incoming,
}

/// The state of a line (ITU-T Q.421), with the bits a and b that each end sends.
#[derive(Clone, Copy, Debug, PartialEq, Eq)]
pub enum State {
    /// Free: 10 forward and backward.
    Idle,
    /// Outgoing: the seizing signal is sent, 00 forward, and not yet acknowledged.
    Seized,
    /// In a call, not answered: 00 forward, seizing acknowledgement 11 backward.
    Acked,
    /// In an answered call: 00 forward, answer 01 backward.
    Answered,
    /// In a call whose called party has hung up: 00 forward, clear-back 11 backward.
    ClearedBack,
    /// Outgoing: clear-forward is sent, 10 forward, until the other end is idle.
    Releasing,
    /// Blocked: 10 forward, blocking 11 backward.
    Blocked,
    /// The other end's signals are unexpected or not yet known: 10 forward, 11 backward.
    Fault,
}

/// The commands of an operator.
#[derive(Clone, Copy, Debug, PartialEq, Eq)]
pub enum Cmd {
    /// Outgoing: seizes an idle circuit.
    Seize,
    /// Outgoing: ends a call or a seizure (clear-forward).
    Clear,
    /// Incoming: answers a call, also after clear-back.
    Answer,
    /// Incoming: the called party hangs up (clear-back).
    ClearBack,
    /// Incoming: takes an idle circuit out of service (blocking).
    Block,
    /// Incoming: puts a blocked circuit back into service.
    Unblock,
}

/// Why a command is refused.
///
/// `WrongRole` comes before all others.
#[derive(Clone, Copy, Debug, PartialEq, Eq, Error)]
pub enum LineFault {
    /// The command is for the other role.
    #[error("the command is for the other role")]
    WrongRole,
    /// The line is not idle, which seizing and blocking need.
    #[error("the line is not idle")]
    NotIdle,
    /// No call is waiting for an answer.
    #[error("the line is not seized")]
    NotSeized,
    /// There is no call to be cleared.
    #[error("the line is not in a call")]
    NotInCall,
    /// The line is not blocked.
    #[error("the line is not blocked")]
    NotBlocked,
}

impl LineFault {
    /// The fault's number, 1 to 5 in the order of the variants.
    #[tactic(auto, unfolding(crate::specs::Commands::fault_number))]
    pub fn number(self) -> u8
        ensures { result ≡ fault_number self }
    {
        match self {
            LineFault::WrongRole => 1,
            LineFault::NotIdle => 2,
            LineFault::NotSeized => 3,
            LineFault::NotInCall => 4,
            LineFault::NotBlocked => 5,
        }
    }
}
