//! The decoder saved as octets, and loaded from them.

ghost use Rattle.std.specs.Prelude.{◌≡◌, ◌++◌, ℕ, List, OnOk, IfSome, Some};
ghost use Rattle.g726_codec.specs.Codec.{Variables};
ghost use Rattle.g726_codec.specs.Saved.{saved_variables, VariablesFit};

use crate::decoder::Decoder;
use crate::state::State;
use g726_quant::Rate;
use saved_octets::OctetReader;
use std::alloc::AllocError;
use std::marker::PhantomData;

impl<R: Rate> Decoder<R> {
    /// Appends the octets of the variables.
    pub fn save(&self, out: &mut Vec<u8>) -> Result<(), AllocError>
        ensures octets { OnOk result (out.new.items ≡ out.old.items ++ saved_variables self.now) }
        ensures fits { OnOk result (VariablesFit self.now) }
    {
        self.state.save(out)
    }

    /// Reads a saved decoder; None if the octets are not those of one.
    pub fn load(octets: &mut OctetReader<'_>) -> Option<Decoder<R>>
        ensures loaded { (s : Variables) (rest : List ℕ) → VariablesFit s
            → octets.old ≡ saved_variables s ++ rest
            → (result ≡ Some s) × (octets.new ≡ rest) }
        ensures read { IfSome result (λ s. octets.old ≡ saved_variables s ++ octets.new) }
    {
        let state = State::load(octets)?;
        Some(Decoder {
            state,
            rate: PhantomData,
        })
    }
}
