//! The gateway saved as octets, and loaded from them.

use super::Gateway;
use crate::StateFault;
use saved_octets::OctetReader;
use std::alloc::AllocError;

impl Gateway {
    ghost use Rattle.std.specs.Prelude.{◌≡◌, ◌++◌, ℕ, List, OnOk, IfOk, IsOkAnd};
    ghost use Rattle.gw_switch.specs.declared.GatewayConfig.{GatewayConfig};
    ghost use Rattle.gw_switch.specs.declared.gateway.Gateway.{Gateway};
    ghost use Rattle.gw_switch.specs.Events.{Event};
    ghost use Rattle.gw_switch.specs.Standing.{HasHistory};
    ghost use Rattle.gw_switch.specs.Saved.{saved_gateway, GatewayFits, IsSame, AreConfiguredAlike};

    /// Appends the octets of the gateway: those of the trunk, then those of its circuits. Its configuration
    /// is not among them.
    #[tactic(auto, unfolding(crate::specs::Saved::saved_gateway))]
    pub fn save(&self, out: &mut Vec<u8>) -> Result<(), AllocError>
        ensures octets { OnOk result (out.new.items ≡ out.old.items ++ saved_gateway self.now) }
        ensures fits { OnOk result (GatewayFits self.now) }
    {
        self.trunk.save(out)?;
        self.circuits.save(out)
    }

    /// Reads a saved gateway into this one, whose circuits are configured as those that were saved. It takes
    /// no memory. If the octets are not those of a gateway, this one is gone, too.
    #[tactic(auto, unfolding(crate::specs::Saved::saved_gateway))]
    pub fn load(mut self, octets: &mut OctetReader<'_>) -> Result<Gateway, StateFault>
        ensures loaded { (config other : GatewayConfig) (saved : Gateway) (events before : List Event)
            (rest : List ℕ) → HasHistory config saved events → GatewayFits saved
            → HasHistory other self before
            → AreConfiguredAlike config events other before → octets.old ≡ saved_gateway saved ++ rest
            → IsOkAnd result (λ g. IsSame g saved × HasHistory config g events) × (octets.new ≡ rest) }
        ensures read { IfOk result (λ g. octets.old ≡ saved_gateway g ++ octets.new) }
    {
        if self.trunk.load(octets).is_none() {
            return Err(StateFault::Trunk);
        }
        match self.circuits.load(octets) {
            Ok(()) => Ok(self),
            Err(number) => Err(StateFault::Circuit(number)),
        }
    }
}
