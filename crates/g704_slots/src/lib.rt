//! Slots 1 to 31 of a trunk whose slot 0 is not there (ITU-T G.704, 2.3): slot 16 is found and followed by
//! its multiframes, and the others stand by it.
#![tactic(auto)]

pub mod laws;
mod mover;

pub use mover::SlotMover;
