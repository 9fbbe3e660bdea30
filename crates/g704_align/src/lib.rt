//! Frame alignment of a 2048 kbit/s stream of aligned octets (ITU-T G.704, 2.3; ITU-T G.706, 4.1).
#![tactic(auto)]

mod alignment;
pub mod laws;

pub use alignment::{Aligner, Place, count_after, is_fas, is_nfas};
