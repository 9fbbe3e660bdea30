//! Which circuits of a gateway begin as new with another configuration.

use super::Gateway;
use crate::GatewayConfig;
use g704_cas::CircuitNo;
use gw_circuit::CircuitConfig;
use std::alloc::{AllocError, Global};

const CIRCUITS: u8 = 30;

impl Gateway {
    ghost use Rattle.std.specs.Prelude.{ℕ, IfOk, OnOk, List};
    ghost use Rattle.gw_switch.specs.Events.{Event};
    ghost use Rattle.gw_switch.specs.Reconfigured.{IsRenewal, HasTaken, IsReconfigured};

    /// The gateway with another configuration of the same law: each circuit whose configuration is another
    /// one begins as new, and all others go on.
    ///
    /// # Errors
    ///
    /// Memory was refused; then the gateway is gone.
    pub fn reconfigured(
        mut self,
        alloc: Global,
        old: &GatewayConfig,
        new: &GatewayConfig,
    ) -> Result<Gateway, AllocError>
        ensures { IfOk result (λ gateway. IsReconfigured old.now new.now self gateway) }
    {
        for number in 0..CIRCUITS {
            let at = usize::from(number);
            let c = CircuitNo::new(number + 1).unwrap();
            self.renew(alloc, c, &old.circuits[at], &new.circuits[at])?;
        }
        Ok(self)
    }

    // Configures a circuit if its configuration is another one.
    fn renew(
        &mut self,
        alloc: Global,
        c: CircuitNo,
        old: &CircuitConfig,
        new: &CircuitConfig,
    ) -> Result<(), AllocError>
        ensures { OnOk result ((more : List Event) × IsRenewal c old.now new.now more
            × HasTaken self.old self.new more) }
    {
        if is_same(old, new) {
            return Ok(());
        }
        self.configure(alloc, c, new)?;
        Ok(())
    }
}

ghost use Rattle.std.specs.Prelude.{◌≡◌, ◌≢◌, true, false};

// Whether two configurations are the same.
fn is_same(old: &CircuitConfig, new: &CircuitConfig) -> bool
    ensures same { result ≡ true → old.now ≡ new.now }
    ensures other { result ≡ false → old.now ≢ new.now }
{
    old == new
}
