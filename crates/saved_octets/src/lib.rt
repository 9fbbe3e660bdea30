//! Octets of a saved state, read and written.
#![tactic(auto)]

mod reading;
mod writing;

pub use reading::OctetReader;
pub use writing::{append_bool, append_u8, append_u16, append_u16s, append_u32};
