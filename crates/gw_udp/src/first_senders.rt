//! The sender that a circuit keeps to which accepts the first one's datagrams (`FirstSenders`).

ghost use Rattle.std.specs.Prelude.{◌≡◌, ◌-◌, None, replicate, slice_set};
ghost use Rattle.gw_udp.specs.First.{first_of, known_after};

use g704_cas::CircuitNo;
use std::net::SocketAddr;

/// The sender of the datagram that was received last, and for each circuit that of the first datagram that
/// its call accepted.
#[derive(Drop)]
pub(crate) struct FirstSenders {
    pub(crate) came: Option<SocketAddr>,
    known: [Option<SocketAddr>; 30],
}

// The sender that a circuit keeps to, when a datagram of the second one came, and was accepted or not.
fn known_after(
    known: Option<SocketAddr>,
    came: Option<SocketAddr>,
    accepted: bool,
) -> Option<SocketAddr>
    ensures { result ≡ known_after known came accepted }
{
    match known {
        Some(_) => known,
        None if accepted => came,
        None => None,
    }
}

impl FirstSenders {
    /// Before the first receive.
    pub(crate) fn new() -> FirstSenders
        ensures { result ≡ record { came = None; known = replicate 30 None } }
    {
        FirstSenders {
            came: None,
            known: [None; 30],
        }
    }

    /// The sender that a circuit keeps to, if its call has accepted a datagram.
    #[inline]
    pub(crate) fn of(&self, circuit: CircuitNo) -> Option<SocketAddr>
        ensures { result ≡ first_of self.now circuit }
    {
        self.known[usize::from(circuit.get()) - 1]
    }

    /// Learns whether a circuit accepted the datagram that was received last.
    pub(crate) fn judge(&mut self, circuit: CircuitNo, accepted: bool)
        ensures { self.new ≡ record self.old {
          known = slice_set self.old.known (circuit - 1)
              (known_after (first_of self.old circuit) self.old.came accepted);
        } }
    {
        let known = self.of(circuit);
        self.known[usize::from(circuit.get()) - 1] = known_after(known, self.came, accepted);
    }

    /// Forgets the sender of a circuit.
    pub(crate) fn close(&mut self, circuit: CircuitNo)
        ensures { self.new ≡ record self.old { known = slice_set self.old.known (circuit - 1) None } }
    {
        self.known[usize::from(circuit.get()) - 1] = None;
    }
}
