//! Ports over ports that send each datagram twice.
#![tactic(auto)]

mod held;
pub mod laws;
mod packet;
mod repeating;

pub use repeating::{MOST, Repeating, packet_words};
