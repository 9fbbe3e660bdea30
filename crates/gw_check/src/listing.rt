//! The thirty lines that `check` prints, one for each circuit of a gateway.

ghost use Rattle.std.specs.Prelude.{◌≡◌, ◌≤◌, ◌+◌, ◌++◌, List, length};
ghost use Rattle.gw_switch.specs.declared.GatewayConfig.{GatewayConfig};
ghost use Rattle.gw_switch.specs.Events.{Event};
ghost use Rattle.gw_switch.specs.Standing.{HasHistory};
ghost use Rattle.gw_check.specs.Listing.{line_of, listing};

use arrayvec::ArrayVec;
use g704_cas::CircuitNo;
use gw_switch::Gateway;

// Thirty lines of 74 octets and a line feed.
type Listing = ArrayVec<u8, 2_250>;

// Puts the line of a circuit, with a line feed, after those that are there.
fn put_line(gateway: &Gateway, circuit: CircuitNo, text: &mut Listing)
    requires { length text.old.items + 75 ≤ 2250 }
    ensures line { (config : GatewayConfig) (events : List Event) → HasHistory config gateway.now events
        → text.new.items ≡ text.old.items ++ line_of config events circuit }
    ensures len { length text.new.items ≡ length text.old.items + 75 }
{
    let line = gw_listing::line(circuit, &gateway.status(circuit));
    // there is room for both
    let _ = text.try_extend_from_slice(line.as_str().as_bytes());
    text.push(b'\n');
}

/// The lines of all circuits, each with a line feed.
pub fn listing(gateway: &Gateway) -> Listing
    ensures { (config : GatewayConfig) (events : List Event) → HasHistory config gateway.now events
        → result.items ≡ listing config events }
{
    let mut text = Listing::new();
    for number in 1..=30u8 {
        put_line(gateway, CircuitNo::new(number).unwrap(), &mut text);
    }
    text
}
