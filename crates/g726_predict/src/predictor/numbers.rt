//! The variables of the predictor as numbers of 16 bits, and the predictor that has such numbers.

ghost use Rattle.std.specs.Prelude.{◌≡◌, IfSome, Some};
ghost use Rattle.g726_predict.specs.Predictor.{Prediction, sez, se};
ghost use Rattle.g726_predict.specs.Saved.{saved_numbers, PredictionFits};

use crate::filter::Filter;
use crate::predictor::Predictor;

impl Predictor {
    /// B1 to B6, A1 and A2 in two's complement, then the words DQ1 to DQ6, SR1 and SR2; and PK1 and PK2.
    pub fn numbers(&self) -> ([u16; 16], bool, bool)
        ensures value { result.0 ≡ saved_numbers self.now }
        ensures pk1 { result.1 ≡ self.now.pk1 }
        ensures pk2 { result.2 ≡ self.now.pk2 }
        ensures fits { PredictionFits self.now }
    {
        (self.filter.numbers(), self.filter.pk1, self.filter.pk2)
    }

    /// The predictor with these numbers; None if one of the last eight is not below 2048, as words are.
    pub fn of_numbers(numbers: [u16; 16], pk1: bool, pk2: bool) -> Option<Predictor>
        ensures loaded { (s : Prediction) → PredictionFits s → numbers ≡ saved_numbers s → pk1 ≡ s.pk1
            → pk2 ≡ s.pk2 → result ≡ Some s }
        ensures read { IfSome result (λ s. (numbers ≡ saved_numbers s) × (pk1 ≡ s.pk1) × (pk2 ≡ s.pk2)) }
    {
        let filter = Filter::of_numbers(numbers, pk1, pk2)?;
        let (sez, se) = filter.estimates();
        Some(Predictor { filter, sez, se })
    }

    /// The predictor with these variables, and SEZ and SE of them.
    pub fn of_filter(filter: Filter, zeros: i16, all: i16) -> Predictor
        requires zeros { zeros ≡ sez filter }
        requires all { all ≡ se filter }
        ensures { result ≡ filter }
    {
        Predictor {
            filter,
            sez: zeros,
            se: all,
        }
    }
}
