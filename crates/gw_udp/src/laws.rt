//! Laws of ports over sockets: each circuit has its own socket, and little comes of it between two looks.

ghost use Rattle.std.specs.Prelude.{◌≡◌, true};
ghost use Rattle.gw_udp.specs.Calls.{EachHasItsSocket};
ghost use Rattle.gw_udp.specs.Given.{GivesFew};

use crate::socket::Socket;
use crate::udp::UdpPorts;

/// Each circuit has its own socket.
///
/// The calls for this circuit, and no others, were made at it one after another.
pub fn each_has_its_socket<S: Socket>(_ports: &UdpPorts<S>)
    ensures { ∥ EachHasItsSocket S.receives S.sends _ports.now.log.calls
        _ports.now.opened.value.items _ports.now.endpoints.items ∥₁ }
{}

/// Since the last look each circuit received fewer octets than 65,536 and those of its longest datagram, if
/// the ports have a limit.
pub fn little_comes_between_looks<S: Socket>(_ports: &UdpPorts<S>)
    ensures { _ports.now.given.limited ≡ true
        → ∥ GivesFew _ports.now.at_look.value.calls _ports.now.log.calls _ports.now.given.counts ∥₁ }
{}
