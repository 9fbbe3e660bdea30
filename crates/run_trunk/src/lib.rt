//! The subcommand `trunk`: the trunk that the command line asks for, opened and served.
#![tactic(auto)]

mod carrying;
mod opening;
mod serving;

pub use carrying::{TrunkEnd, serve};
pub use opening::{OpenTrunk, open_trunk};
