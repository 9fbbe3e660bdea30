//! Frame alignment of a 2048 kbit/s stream of unaligned octets.
//!
//! ITU-T G.704, 2.3 and ITU-T G.706, 4.1, over bits; it returns the octets of the time slots.
#![tactic(auto)]

mod aligner;
mod bits;
pub mod laws;

pub use bits::BitAligner;
