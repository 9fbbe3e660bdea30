//! The trait of a watch, which sees each datagram and what stands behind each record (`Watch`).

ghost use Rattle.std.specs.Prelude.{◌≡◌};
ghost use Rattle.gw_records.specs.Records.{named};
ghost use Rattle.gw_session.specs.Watch.{Shows, ShowsSome};
ghost use Rattle.gw_session.specs.Watch.Look.{Behind, Came};

use g704_cas::CircuitNo;
use gw_records::RecordHead;
use gw_switch::Gateway;

/// What is shown what the gateway of a session acts on. It has the gateway by a shared reference, so that a
/// session goes the same way with any watch.
pub trait Watch {
    /// Relates a watch before and after a call, and what it is shown. It is the type's own.
    ghost shows: { Shows Self };

    /// What is shown for each datagram, of a port or of a record, when the gateway was given it: how many
    /// octets of the record that is acted on were heard before, the circuit, the datagram, and 0 or the
    /// number of its refusal.
    fn datagram(&mut self, heard: usize, circuit: CircuitNo, octets: &[u8], code: u8)
        ensures { shows self.old self.new (Came heard circuit octets.now code) };

    /// What is shown behind each record, and behind its datagrams: the record's head and body, the code of
    /// its answer (0 for octets of the trunk, and if a datagram, a command or a codec was not refused), and
    /// the gateway as it stands after it.
    fn after(&mut self, head: &RecordHead, body: &[u8], code: u8, gateway: &Gateway)
        ensures { shows self.old self.new (Behind (named head.now body.now) code gateway.now) };
}

/// A watch that looks at nothing.
#[derive(Clone, Copy, Debug, PartialEq, Eq)]
pub struct NoWatch;

impl Watch for NoWatch {
    ghost shows = { λ old new _. new ≡ old };

    #[inline(always)]
    fn datagram(&mut self, _heard: usize, _circuit: CircuitNo, _octets: &[u8], _code: u8) {}

    #[inline(always)]
    fn after(&mut self, _head: &RecordHead, _body: &[u8], _code: u8, _gateway: &Gateway) {}
}

/// A watch, or none.
impl<W: Watch> Watch for Option<W> {
    ghost shows = { ShowsSome W.shows };

    fn datagram(&mut self, heard: usize, circuit: CircuitNo, octets: &[u8], code: u8) {
        if let Some(watch) = self {
            watch.datagram(heard, circuit, octets, code);
        }
    }

    fn after(&mut self, head: &RecordHead, body: &[u8], code: u8, gateway: &Gateway) {
        if let Some(watch) = self {
            watch.after(head, body, code, gateway);
        }
    }
}
