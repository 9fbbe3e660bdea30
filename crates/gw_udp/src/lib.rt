//! The ports of circuits over UDP: sockets, and the senders that they accept.
#![tactic(auto)]

mod first_senders;
mod given;
mod inherited;
pub mod laws;
mod outcome;
mod readiness;
mod socket;
mod source_filter;
mod system_socket;
mod udp;

pub use inherited::Descriptors;
pub use socket::Socket;
pub use source_filter::SourceFilter;
pub use system_socket::SystemSocket;
pub use udp::{OpenFault, UdpPorts};
