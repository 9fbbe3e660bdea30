//! Laws of ports that send each datagram twice, proved by functions that do nothing.

ghost use Rattle.gw_records.specs.Ports.{IfKnown};
ghost use Rattle.gw_repeat.specs.Ports.{HasRepeated};

use crate::repeating::Repeating;
use gw_records::Ports;

/// The ports below have the session's calls, and repetitions between them.
///
/// Since these ports were opened, each call of the session was made below unchanged; behind a send came a
/// send of the datagram that is due, of the same circuit; there were no others.
pub fn each_goes_out_again<P: Ports>(_ports: &Repeating<P>)
    ensures { ∥ IfKnown (P.tells _ports.now.opened.value).calls (P.tells _ports.now.ports).calls
        (HasRepeated _ports.now.count _ports.now.words _ports.now.log.calls) ∥₁ }
{}
