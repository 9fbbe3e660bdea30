//! The command line: its options, and what the program is asked to do.
#![tactic(auto)]

mod command;
mod options;
mod request;

pub use command::{Refusal, RefusalKind, arguments, request_of};
pub use request::{
    AlignOptions, ControlOptions, Crc4Options, FilterOptions, PortOptions, ReplayOptions, Request,
    SatopOptions, Senders, ServeOptions, SessionOptions, StreamOptions, TrunkOptions,
};
