//! Whether a datagram is a packet of the circuit, and what is played for it: with bit L ones.

ghost use Rattle.std.specs.Prelude.{◌≡◌, ◌≤◌, replicate};
ghost use Rattle.gw_satop.specs.Packets.{fits, malformed_by, malformed_number, octets_to_play, packet_in};

use satop_packet::{MAX_PAYLOAD, SatopFault, SatopView, parse};
use thiserror::Error;

// What is played for the greatest packet whose octets are invalid.
const ONES: &[u8] = &[0xFF; MAX_PAYLOAD];

/// Why a datagram is no packet of an emulated circuit.
///
/// If several apply, the first one listed is returned.
#[derive(Clone, Copy, Debug, PartialEq, Eq, Error)]
pub enum PacketFault {
    /// 1: fewer octets than the headers have.
    #[error("fewer octets than the headers")]
    Short,
    /// 2: no fixed RTP header although one is expected.
    #[error("no fixed RTP header")]
    NoRtp,
    /// 3: the first four bits of the control word are not zero.
    #[error("no control word")]
    NoControl,
    /// 4: LEN is neither 0 nor the number of all octets.
    #[error("another length")]
    OtherLength,
    /// 5: another number of the trunk's octets than the circuit's packets have. (A packet with bit L may have
    /// none.)
    #[error("another size")]
    OtherSize,
}

impl PacketFault {
    /// The number of the fault, 1 to 5, in order of precedence.
    pub fn number(self) -> u8
        ensures { result ≡ malformed_number self }
    {
        match self {
            PacketFault::Short => 1,
            PacketFault::NoRtp => 2,
            PacketFault::NoControl => 3,
            PacketFault::OtherLength => 4,
            PacketFault::OtherSize => 5,
        }
    }
}

// The circuit's fault for a datagram that is no SAToP packet.
fn malformed_by(fault: SatopFault) -> PacketFault
    ensures { result ≡ malformed_by fault }
{
    match fault {
        SatopFault::Short => PacketFault::Short,
        SatopFault::NoRtp => PacketFault::NoRtp,
        SatopFault::NoControl => PacketFault::NoControl,
        SatopFault::OtherLength => PacketFault::OtherLength,
    }
}

// Whether a packet is one of a circuit whose packets have this many octets.
fn fits(size: usize, view: &SatopView<'_>) -> bool
    ensures { result ≡ fits size view.now }
{
    let len = view.payload().len();
    len == size || view.control().lost && len == 0
}

// This many octets of ones, played for a packet without valid octets.
fn ones(size: usize) -> &'static [u8]
    requires { size ≤ 1280 }
    ensures { result.now ≡ replicate size 255 }
{
    &ONES[..size]
}

// The octets that are played for a packet: ones if its own are invalid.
pub(crate) fn octets_to_play<'d>(size: usize, view: &SatopView<'d>) -> &'d [u8]
    requires { size ≤ 1280 }
    ensures { result.now ≡ octets_to_play size view.now }
{
    if view.control().lost {
        ones(size)
    } else {
        view.payload()
    }
}

// The packet of a datagram, behind an RTP header if `rtp` is set.
pub(crate) fn packet_in(
    rtp: bool,
    size: usize,
    datagram: &[u8],
) -> Result<SatopView<'_>, PacketFault>
    ensures { result ≡ packet_in rtp size datagram.now }
{
    match parse(datagram, rtp) {
        Ok(view) => {
            if fits(size, &view) {
                Ok(view)
            } else {
                Err(PacketFault::OtherSize)
            }
        }
        Err(fault) => Err(malformed_by(fault)),
    }
}
