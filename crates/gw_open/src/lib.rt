//! How what a session or a trunk is asked for is opened: its configuration, its gateway, its log and its
//! sockets; and how the state of its gateway is saved.
#![tactic(auto)]

mod files;
mod lock_process;
mod log;
mod log_folder;
mod opening;
mod reports;
mod state;

pub use log::begin_log;
pub use log_folder::{LogLock, lock_log};
pub use opening::{
    SessionPorts, end_session, open_ports, open_teller, open_trunk_ports, read_config,
};
pub use reports::open_reports;
pub use state::begin_gateway;
