//! The subcommand `satop`: the emulated circuit that is asked for, opened and carried (RFC 4553).
#![tactic(auto)]

mod asked;
mod carrying;
mod ends;

pub use carrying::emulate;
