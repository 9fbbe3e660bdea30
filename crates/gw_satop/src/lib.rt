//! An emulated circuit: a trunk as SAToP packets over UDP (RFC 4553), its octets on the other side.
#![tactic(auto)]

mod carrying;
mod circuit;
mod counts;
mod line;
mod log;
mod pace;
mod packet;
mod peer;
mod ready;
mod sender;
mod system;
mod timing;

pub use carrying::carry_satop;
pub use circuit::SatopCircuit;
pub use counts::Counts;
pub use line::{DatagramOutcome, Receiver};
pub use pace::PlayClock;
pub use packet::PacketFault;
pub use peer::{UdpPeer, address_of, open_socket};
pub use ready::{WhenReady, open_input};
pub use sender::{Sender, SenderSettings};
pub use system::SystemClock;
pub use timing::Timing;
