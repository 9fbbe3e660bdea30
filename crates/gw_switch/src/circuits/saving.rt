//! The circuits saved as octets, and loaded from them.

use super::{BoxedCircuit, CIRCUITS, Circuits};
use saved_octets::OctetReader;
use std::alloc::AllocError;

impl Circuits {
    ghost use Rattle.std.specs.Prelude.{◌≡◌, ◌++◌, ℕ, List, OnOk, Ok, All};
    ghost use Rattle.gw_switch.specs.declared.circuits.BoxedCircuit.{BoxedCircuit};
    ghost use Rattle.gw_switch.specs.Saved.{saved_circuits, ChannelFits, AreAlike};

    /// Appends the octets of the circuits, the first one first.
    pub(crate) fn save(&self, out: &mut Vec<u8>) -> Result<(), AllocError>
        ensures octets { OnOk result (out.new.items
            ≡ out.old.items ++ saved_circuits self.now.channels.items) }
        ensures fits { OnOk result (All ChannelFits self.now.channels.items) }
    {
        for channel in &self.channels {
            channel.circuit.save(out)?;
        }
        Ok(())
    }

    /// Reads saved circuits into these, each of which keeps its law and its configuration. The error is the
    /// number of the first circuit whose octets are not those of one; then they are not to be used.
    pub(crate) fn load(&mut self, octets: &mut OctetReader<'_>) -> Result<(), u8>
        ensures loaded { (saved : List BoxedCircuit) (rest : List ℕ) → AreAlike self.old.channels.items saved
            → octets.old ≡ saved_circuits saved ++ rest
            → (result ≡ Ok tt) × (self.new.channels.items ≡ saved) × (octets.new ≡ rest) }
        ensures read { OnOk result (octets.old ≡ saved_circuits self.new.channels.items ++ octets.new) }
    {
        for number in 0..CIRCUITS {
            let channel = &mut self.channels[usize::from(number)];
            if !load_channel(channel, octets) {
                return Err(number + 1);
            }
        }
        Ok(())
    }
}

ghost use Rattle.std.specs.Prelude.{◌≡◌, ◌++◌, ℕ, List, true};
ghost use Rattle.gw_switch.specs.Saved.{saved_channel, IsAlike};

// Reads a saved circuit into this one, and returns whether the octets are those of one.
fn load_channel(channel: &mut BoxedCircuit, octets: &mut OctetReader<'_>) -> bool
    ensures loaded { (saved : BoxedCircuit) (rest : List ℕ) → IsAlike channel.old saved
        → octets.old ≡ saved_channel saved ++ rest
        → (result ≡ true) × (channel.new ≡ saved) × (octets.new ≡ rest) }
    ensures read { result ≡ true → octets.old ≡ saved_channel channel.new ++ octets.new }
{
    channel.circuit.load(octets).is_some()
}
