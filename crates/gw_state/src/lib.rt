//! The state of a gateway as a file: a mark, the configuration, the gateway, and a checksum.
#![tactic(auto)]

mod fault;
mod head;
pub mod laws;
mod loading;
mod saving;
mod settings;

pub use fault::{LoadFault, StateKind};
pub use loading::{Loaded, load_gateway};
pub use saving::state_file;
