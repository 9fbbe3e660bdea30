//! ITU-T G.726 of eight circuits at once: circuit k is lane k of each vector.
//!
//! A lane is a natural number of 16 bits; signed variables are in two's complement.
#![tactic(auto)]

mod adapt;
mod adaptations;
mod bundle;
mod compressor;
mod decoding;
mod encoding;
mod entries;
mod filter;
mod lane;
mod lanes;
mod logs;
mod poles;
mod predictions;
mod quantiser;

pub use bundle::{Bundle, FRAMES};
pub use lanes::Lanes;
