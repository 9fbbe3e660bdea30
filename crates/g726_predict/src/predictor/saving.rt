//! The predictor saved as octets, and loaded from them.

ghost use Rattle.std.specs.Prelude.{◌≡◌, ◌++◌, ℕ, List, OnOk, IfSome, Some};
ghost use Rattle.g726_predict.specs.Predictor.{Prediction};
ghost use Rattle.g726_predict.specs.Saved.{saved_prediction, PredictionFits};

use crate::filter::Filter;
use crate::predictor::Predictor;
use saved_octets::OctetReader;
use std::alloc::AllocError;

impl Predictor {
    /// Appends the octets of the variables.
    pub fn save(&self, out: &mut Vec<u8>) -> Result<(), AllocError>
        ensures octets { OnOk result (out.new.items ≡ out.old.items ++ saved_prediction self.now) }
        ensures fits { PredictionFits self.now }
    {
        self.filter.save(out)
    }

    /// Reads a saved predictor; None if the octets are not those of one.
    pub fn load(octets: &mut OctetReader<'_>) -> Option<Predictor>
        ensures loaded { (s : Prediction) (rest : List ℕ) → PredictionFits s
            → octets.old ≡ saved_prediction s ++ rest → (result ≡ Some s) × (octets.new ≡ rest) }
        ensures read { IfSome result (λ s. octets.old ≡ saved_prediction s ++ octets.new) }
    {
        let filter = Filter::load(octets)?;
        let (sez, se) = filter.estimates();
        Some(Predictor { filter, sez, se })
    }
}
