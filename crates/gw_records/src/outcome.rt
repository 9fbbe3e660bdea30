//! Why a session ends before its source (`RunFault`), and what it has counted (`Totals`).
ghost use Rattle.std.specs.Prelude.{◌≡◌};
ghost use Rattle.gw_records.specs.Outcome.{fault_number, answer_of};

use crate::records::RecordsEnd;
use thiserror::Error;

/// The totals of a session.
///
/// Each count saturates.
#[derive(Clone, Copy, Debug, PartialEq, Eq)]
pub struct Totals {
    /// Records read whole.
    pub records: u64,
    /// Octets of trunk records.
    pub octets: u64,
    /// Datagrams written or sent.
    pub datagrams: u64,
    /// Datagrams refused or skipped.
    pub dropped: u64,
    /// Faults of ports.
    pub port_faults: u64,
}

/// The totals at the start.
pub const NO_TOTALS: Totals = Totals {
    records: 0,
    octets: 0,
    datagrams: 0,
    dropped: 0,
    port_faults: 0,
};

/// Why a session ended before its source.
///
/// The printed form is the program's line for it.
#[derive(Clone, Copy, Debug, PartialEq, Eq, Error)]
pub enum RunFault {
    /// A record of a kind that this session does not accept.
    #[error("fault 1 BadKind")]
    BadKind,
    /// A circuit that a record of this kind cannot have.
    #[error("fault 2 BadCircuit")]
    BadCircuit,
    /// A command or codec record of the wrong length, or with an unknown value.
    #[error("fault 3 BadCommand")]
    BadCommand,
    /// The source ended inside a record.
    #[error("fault 4 Truncated")]
    Truncated,
    /// The source failed, or there were 2^62 reads.
    #[error("fault 5 Read")]
    Read,
    /// The sink failed, or took nothing of a nonempty piece.
    #[error("fault 6 Write")]
    Write,
    /// Memory was refused before the first octet was read.
    #[error("out of memory")]
    OutOfMemory,
}

impl RunFault {
    /// The fault's number, 1 to 7 in the order of the variants.
    #[tactic(auto, unfolding(crate::specs::Outcome::fault_number))]
    pub fn number(self) -> u8
        ensures { result ≡ fault_number self }
    {
        match self {
            RunFault::BadKind => 1,
            RunFault::BadCircuit => 2,
            RunFault::BadCommand => 3,
            RunFault::Truncated => 4,
            RunFault::Read => 5,
            RunFault::Write => 6,
            RunFault::OutOfMemory => 7,
        }
    }
}

/// The result of a session by the end of its records.
pub fn answer(ending: RecordsEnd, totals: Totals) -> Result<Totals, RunFault>
    ensures { result ≡ answer_of ending totals }
{
    match ending {
        RecordsEnd::End => Ok(totals),
        RecordsEnd::BadKind => Err(RunFault::BadKind),
        RecordsEnd::BadCircuit => Err(RunFault::BadCircuit),
        RecordsEnd::BadCommand => Err(RunFault::BadCommand),
        RecordsEnd::Truncated => Err(RunFault::Truncated),
    }
}
