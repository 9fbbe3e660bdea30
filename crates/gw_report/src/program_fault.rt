//! Why the program failed, as the line that it prints and its exit status (`ProgramFault`).

ghost use Rattle.std.specs.Prelude.{◌≡◌};
ghost use Rattle.gw_report.specs.Status.{program_fault_status};

use gw_config::ConfigFault;
use gw_records::RunFault;
use gw_state::LoadFault;
use std::alloc::{AllocError, Global};
use std::io;
use thiserror::Error;

/// The status without a fault, and after help.
pub const DONE: u8 = 0;

const FAULT: u8 = 1;

/// The status if the command line, the file or the configuration is refused.
pub const REFUSED: u8 = 2;

const NO_MEMORY: u8 = 3;

/// Why the program failed. It prints as the line on standard error. A text is what the fault is about, as a
/// file, an address or an option, and why the system refused it (`reason_at`).
#[derive(Debug, Drop, Error)]
pub enum ProgramFault {
    /// A session ended with a fault.
    #[error("{0}")]
    Session(RunFault),
    /// The socket of the circuit of this number can't be opened.
    #[error("socket {0}")]
    Socket(u8),
    /// The socket of an emulated circuit can't be opened.
    #[error("cannot open the socket of the circuit: {0}")]
    FarEnd(String),
    /// So many octets of a packet are no whole frames.
    #[error("error: --size {0} is not a multiple of 32")]
    PacketSize(u16),
    /// A stream of a trunk, or the descriptor of its end, can't be waited for.
    #[error("cannot wait for {0}")]
    Trunk(String),
    /// The command line is not text.
    #[error("error: the command line is not text")]
    NotText,
    /// The command line names nothing to do.
    #[error("error: nothing to do")]
    Nothing,
    /// The file of the configuration can't be read.
    #[error("cannot read the configuration")]
    File,
    /// A file of the trunk's log can't be opened, read or written.
    #[error("cannot open the log of the trunk: {0}")]
    NoLog(String),
    /// The trunk's log in a folder is that of the process of this number.
    #[error("the log of the trunk in {0} is in use by process {1}")]
    LogInUse(String, u32),
    /// The files of the trunk's log want this many octets, and its folder has fewer.
    #[error("the log of the trunk in {0} wants {1} octets")]
    LogRoom(String, u64),
    /// The files of the trunk's log in a folder have nothing that can be loaded, and are not new.
    #[error("the log of the trunk in {0} has no state that can be loaded")]
    BadLog(String),
    /// A write of the trunk's log in a folder failed: the trunk ended behind what it had in hand.
    #[error("cannot write the log of the trunk in {0}")]
    LogLost(String),
    /// The file of reports can't be opened.
    #[error("cannot open the file of --reports: {0}")]
    Reports(String),
    /// The file of a state can't be read.
    #[error("cannot read the state: {0}")]
    NoState(String),
    /// The file at a path has no state of this configuration.
    #[error("{1} in {0}")]
    State(String, LoadFault),
    /// The state can't be saved.
    #[error("cannot save the state: {0}")]
    NotSaved(String),
    /// The socket that clients connect to can't be opened.
    #[error("cannot open the control socket: {0}")]
    Control(String),
    /// The socket of `--tell` can't be opened.
    #[error("cannot open the socket of --tell: {0}")]
    Tell(String),
    /// The file has no valid configuration.
    #[error("{0}")]
    Config(ConfigFault),
    /// Memory was refused.
    #[error("out of memory")]
    OutOfMemory,
}

/// Why the system refused the file or the address of this name, behind that name.
///
/// # Errors
///
/// [`ProgramFault::OutOfMemory`] if it wants memory, or the text does.
pub fn reason_at(alloc: Global, name: &str, error: &io::Error) -> Result<String, ProgramFault> {
    match error.kind() {
        io::ErrorKind::OutOfMemory => Err(ProgramFault::OutOfMemory),
        _ => Ok(format!(in alloc; "{name}: {error}")?),
    }
}

impl From<AllocError> for ProgramFault {
    fn from(_error: AllocError) -> ProgramFault {
        ProgramFault::OutOfMemory
    }
}

impl ProgramFault {
    /// The fault of a failed system call: out of memory, or `otherwise`.
    pub fn of(error: &io::Error, otherwise: ProgramFault) -> ProgramFault {
        match error.kind() {
            io::ErrorKind::OutOfMemory => ProgramFault::OutOfMemory,
            _ => otherwise,
        }
    }

    /// The exit status: 1 for a fault of a session, a socket or a trunk, if a state is not saved, or if a log
    /// has too little room or takes no writes; 2 if the command line, a file or the configuration is refused;
    /// 3 if out of memory.
    pub fn status(&self) -> u8
        ensures { result ≡ program_fault_status self.now }
    {
        match self {
            ProgramFault::Session(RunFault::OutOfMemory)
            | ProgramFault::Config(ConfigFault::OutOfMemory)
            | ProgramFault::State(_, LoadFault::OutOfMemory)
            | ProgramFault::OutOfMemory => NO_MEMORY,
            ProgramFault::Session(_)
            | ProgramFault::Socket(_)
            | ProgramFault::FarEnd(_)
            | ProgramFault::Trunk(_)
            | ProgramFault::LogRoom(_, _)
            | ProgramFault::LogLost(_)
            | ProgramFault::NotSaved(_) => FAULT,
            ProgramFault::NotText
            | ProgramFault::PacketSize(_)
            | ProgramFault::Nothing
            | ProgramFault::File
            | ProgramFault::NoLog(_)
            | ProgramFault::LogInUse(_, _)
            | ProgramFault::BadLog(_)
            | ProgramFault::Reports(_)
            | ProgramFault::NoState(_)
            | ProgramFault::State(_, _)
            | ProgramFault::Control(_)
            | ProgramFault::Tell(_)
            | ProgramFault::Config(_) => REFUSED,
        }
    }
}
