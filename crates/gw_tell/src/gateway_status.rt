//! The alarms of a trunk and the status of its circuits at one moment (`GatewayStatus`).

ghost use Rattle.std.specs.Prelude.{◌≡◌, ◌≤◌};

use g704_cas::CircuitNo;
use gw_circuit::Status;
use gw_switch::{Alarms, Gateway};

/// The alarms of a trunk, and the status of circuits 1 to 30.
#[derive(Clone, Copy)]
pub struct GatewayStatus {
    pub alarms: Alarms,
    pub rows: [Status; 30],
}

/// The circuit of this number.
pub fn circuit(number: u8) -> CircuitNo
    requires { (1 ≤ number) × (number ≤ 30) }
    ensures { result ≡ number }
{
    CircuitNo::new(number).unwrap()
}

impl GatewayStatus {
    ghost use Rattle.gw_tell.specs.Reports.{Shows, AreOf};

    // The statuses of all circuits.
    fn rows_of(gateway: &Gateway) -> [Status; 30]
        ensures { AreOf result gateway.now }
    {
        let mut rows = [gateway.status(circuit(1)); 30];
        for number in 2..=30u8 {
            rows[usize::from(number) - 1] = gateway.status(circuit(number));
        }
        rows
    }

    /// The alarms and circuit statuses of a gateway now.
    #[inline(never)]
    pub fn of(gateway: &Gateway) -> GatewayStatus
        ensures { Shows result gateway.now }
    {
        GatewayStatus {
            alarms: gateway.alarms(),
            rows: GatewayStatus::rows_of(gateway),
        }
    }
}
