//! How many octets each circuit's socket gave since the ports last looked (`GivenOctets`).

ghost use Rattle.std.specs.Prelude.{◌≡◌, ◌≤◌, ◌↔◌, IsTrue, false, replicate, true};
ghost use Rattle.gw_udp.specs.Given.{HasGivenEnough, given_after};

use g704_cas::CircuitNo;
use gw_records::PortFault;

// How many octets of a circuit are enough until the next look, if they are limited: with the datagram that
// reaches them, thirty circuits bring 4 MB at most between two records of the trunk. Its log has room for it.
const ENOUGH: usize = 65_536;

/// The octets that each circuit's socket gave since the ports last looked.
#[derive(Drop)]
pub(crate) struct GivenOctets {
    counts: [usize; 30],
    // Whether a circuit that gave enough is asked no more before the next look.
    limited: bool,
}

impl GivenOctets {
    /// Before the first receive, without a limit.
    pub(crate) fn new() -> GivenOctets
        ensures { result ≡ record { counts = replicate 30 0; limited = false } }
    {
        GivenOctets {
            counts: [0; 30],
            limited: false,
        }
    }

    /// Begins anew, at a look.
    pub(crate) fn clear(&mut self)
        ensures { self.new ≡ record self.old { counts = replicate 30 0 } }
    {
        self.counts = [0; 30];
    }

    /// Begins anew, with a limit from now on.
    pub(crate) fn limit(&mut self)
        ensures { self.new ≡ record { counts = replicate 30 0; limited = true } }
    {
        self.clear();
        self.limited = true;
    }

    /// Whether the socket of a circuit is asked no more before the next look.
    #[inline]
    pub(crate) fn are_enough(&self, circuit: CircuitNo) -> bool
        ensures enough { IsTrue result ↔ HasGivenEnough self.now circuit }
        ensures in_range { (1 ≤ circuit) × (circuit ≤ 30) }
    {
        let enough = self.counts[usize::from(circuit.get()) - 1] >= ENOUGH;
        self.limited && enough
    }

    /// Counts a receive of a circuit.
    #[inline]
    pub(crate) fn count(&mut self, circuit: CircuitNo, received: &Result<Option<usize>, PortFault>)
        ensures { self.new ≡ record self.old { counts = given_after self.old.counts circuit received.now } }
    {
        if let Ok(Some(len)) = received {
            let at = usize::from(circuit.get()) - 1;
            self.counts[at] = self.counts[at].saturating_add(*len);
        }
    }
}
