//! The trait of the circuits' ports, which receive and send datagrams (`Ports`).
ghost use Rattle.std.specs.Prelude.{◌≡◌, ◌≤◌, length, IfOk, IfSome};
ghost use Rattle.gw_records.specs.Ports.{PortsState, Receives, Sends, CountsFault, KeepsSends, KeepsReceives};

use g704_cas::CircuitNo;
use thiserror::Error;

/// A port failed.
#[derive(Clone, Copy, Debug, PartialEq, Eq, Error)]
#[error("a port failed")]
pub struct PortFault;

/// Receives and sends the datagrams of circuits.
pub trait Ports {
    /// What the ports report: the numbers of failed receives and sends, which saturate, and, if known, the
    /// datagrams waiting at each circuit, those received, those sent, and all calls in order with their
    /// results.
    ghost tells: { Self → PortsState };

    /// Learns which circuits have a datagram waiting; receives and sends nothing. It is called before the
    /// first octet of each trunk record. Ports that need not know do nothing.
    fn look(&mut self)
        ensures { tells self.new ≡ tells self.old }
    {}

    /// Whether these ports follow the calls: they are told which datagrams are accepted, and which paths are
    /// closed.
    fn follows_calls(&self) -> bool {
        false
    }

    /// Learns whether the datagram that the last receive gave was accepted by its circuit, this one.
    fn judge(&mut self, _circuit: CircuitNo, _accepted: bool)
        ensures { tells self.new ≡ tells self.old }
    {}

    /// Learns that the path of a circuit is closed.
    fn close(&mut self, _circuit: CircuitNo)
        ensures { tells self.new ≡ tells self.old }
    {}

    /// Receives one datagram of a circuit into `room` and returns its length.
    ///
    /// None if none is waiting. `room` has place for any datagram.
    fn receive(&mut self, circuit: CircuitNo, room: &mut [u8]) -> Result<Option<usize>, PortFault>
        requires { 65536 ≤ length room.old }
        ensures bound { IfOk result (λ got. IfSome got (λ n. n ≤ length room.new)) }
        ensures receives { Receives (tells self.old) (tells self.new) circuit result room.new }
        ensures counts { CountsFault (tells self.old).receive_failures (tells self.new).receive_failures
            result }
        ensures sends_stay { KeepsSends (tells self.old) (tells self.new) };

    /// Sends a datagram of a circuit.
    fn send(&mut self, circuit: CircuitNo, datagram: &[u8]) -> Result<(), PortFault>
        ensures sends { Sends (tells self.old) (tells self.new) circuit result datagram.now }
        ensures counts { CountsFault (tells self.old).send_failures (tells self.new).send_failures result }
        ensures receives_stay { KeepsReceives (tells self.old) (tells self.new) };
}
