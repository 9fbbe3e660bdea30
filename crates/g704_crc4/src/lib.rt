//! CRC-4 multiframes of a 2048 kbit/s stream (ITU-T G.704, 2.3.3; ITU-T G.706, 4).
//!
//! Bit 1 of time slot 0 carries the check bits of the submultiframe before, and the multiframe alignment
//! signal.
#![tactic(auto)]

mod checking;
mod counting;
pub mod laws;
mod receiving;
mod remainder;
mod reporting;
mod searching;
mod sending;
mod table;

pub use checking::{Checker, Counts, Crc4Event, check};
pub use counting::{ReceiverCounts, TrunkChecker};
pub use receiving::{Receiver, ReceiverEvent};
pub use remainder::Remainder;
pub use reporting::EBitReporter;
pub use searching::find_multiframe;
pub use sending::Crc4Inserter;

// Octets of a frame, a double frame, a submultiframe and a multiframe.
const FRAME: u16 = 32;

const TWO_FRAMES: u16 = 64;

const SUBMULTIFRAME: u16 = 256;

const MULTIFRAME: u16 = 512;

// Bit 1 of an octet, the first sent: the Si bit in time slot 0.
const BIT_1: u8 = 128;
