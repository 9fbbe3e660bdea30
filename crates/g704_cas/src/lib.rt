//! Channel associated signalling in time slot 16 (ITU-T G.704, 5.1.3.2).
//!
//! It has multiframe alignment (ITU-T G.732, 5.2), the circuits of a trunk, and their ABCD bits.
#![tactic(auto)]

mod alignment;
pub mod laws;
mod numbers;

pub use alignment::{MfAligner, MfPlace};
pub use numbers::{CircuitNo, Nibble, SIGNALLING_SLOT, join, nibbles};
