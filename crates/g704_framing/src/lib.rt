//! What frame and multiframe alignment share: finding, keeping and losing alignments of a stream.
//!
//! Definitions and laws of both, over a record of what differs; no code that runs.
#![tactic(auto)]

pub mod laws;
