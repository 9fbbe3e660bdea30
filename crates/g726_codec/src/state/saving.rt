//! The variables of an encoder or a decoder saved as octets, and loaded from them.

ghost use Rattle.std.specs.Prelude.{◌≡◌, ◌++◌, ℕ, List, OnOk, IfSome, Some};
ghost use Rattle.g726_codec.specs.Codec.{Variables};
ghost use Rattle.g726_codec.specs.Saved.{saved_variables, VariablesFit};

use crate::state::State;
use g726_predict::Predictor;
use g726_tone::Adapt;
use saved_octets::OctetReader;
use std::alloc::AllocError;

impl State {
    #[tactic(auto, unfolding(crate::specs::Saved::saved_variables))]
    pub(crate) fn save(&self, out: &mut Vec<u8>) -> Result<(), AllocError>
        ensures octets { OnOk result (out.new.items ≡ out.old.items ++ saved_variables self.now) }
        ensures fits { OnOk result (VariablesFit self.now) }
    {
        self.adapt.save(out)?;
        self.predictor.save(out)
    }

    #[tactic(auto, unfolding(crate::specs::Saved::saved_variables))]
    pub(crate) fn load(octets: &mut OctetReader<'_>) -> Option<State>
        ensures loaded { (s : Variables) (rest : List ℕ) → VariablesFit s
            → octets.old ≡ saved_variables s ++ rest
            → (result ≡ Some s) × (octets.new ≡ rest) }
        ensures read { IfSome result (λ s. octets.old ≡ saved_variables s ++ octets.new) }
    {
        let adapt = Adapt::load(octets)?;
        let predictor = Predictor::load(octets)?;
        Some(State { adapt, predictor })
    }
}
