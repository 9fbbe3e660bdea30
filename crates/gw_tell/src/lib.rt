//! The state of a trunk and its changes, sent to clients as lines of text while a session goes on.
#![tactic(auto)]

mod backlog;
mod client;
mod counts;
mod gateway_status;
mod header;
mod lines;
mod place;
mod report;
mod seizures;
mod teller;
mod text;

pub use teller::Teller;
