//! The log of a trunk in service: states of its gateway, and the records behind them, in files that are whole
//! whenever the program is killed; and the gateway that goes on from what such files have.
#![tactic(auto)]

mod checkpoint_octets;
mod checkpointing;
pub mod laws;
mod log_contents;
mod resuming;
mod room;
mod state;
mod trunk_log;

pub use checkpointing::LogFault;
pub use log_contents::{LogContents, PairOctets};
pub use resuming::{Found, resumed_of};
pub use room::fill_file;
pub use state::{ResumeFault, loaded_of};
pub use trunk_log::{TrunkLog, log_behind};
