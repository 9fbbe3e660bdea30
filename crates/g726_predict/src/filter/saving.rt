//! The variables of the predictor saved as octets, and loaded from them.

ghost use Rattle.std.specs.Prelude.{◌≡◌, ◌<◌, ◌++◌, ℕ, Bool, List, OnOk, IfSome, Some, nat_lt};
ghost use Rattle.std.specs.List.{list_all};
ghost use Rattle.g726_predict.specs.Predictor.{Prediction};
ghost use Rattle.g726_predict.specs.Saved.{saved_numbers, saved_prediction, PredictionFits};

use crate::filter::Filter;
use saved_octets::{OctetReader, append_bool, append_u16s};
use std::alloc::AllocError;

// A word is below this number.
const WORDS: u16 = 2048;

impl Filter {
    #[tactic(auto, unfolding(crate::specs::Saved::saved_prediction))]
    pub(crate) fn save(&self, out: &mut Vec<u8>) -> Result<(), AllocError>
        ensures octets { OnOk result (out.new.items ≡ out.old.items ++ saved_prediction self.now) }
        ensures fits { PredictionFits self.now }
    {
        append_u16s(out, &self.numbers())?;
        append_bool(out, self.pk1)?;
        append_bool(out, self.pk2)
    }

    #[tactic(auto, unfolding(crate::specs::Saved::saved_prediction))]
    pub(crate) fn load(octets: &mut OctetReader<'_>) -> Option<Filter>
        ensures loaded { (s : Prediction) (rest : List ℕ) → PredictionFits s
            → octets.old ≡ saved_prediction s ++ rest
            → (result ≡ Some s) × (octets.new ≡ rest) }
        ensures read { IfSome result (λ s. octets.old ≡ saved_prediction s ++ octets.new) }
    {
        let mut numbers = [0; 16];
        octets.read_u16_into(&mut numbers)?;
        let pk1 = octets.read_bool()?;
        let pk2 = octets.read_bool()?;
        Filter::of_numbers(numbers, pk1, pk2)
    }

    // B1 to B6, A1 and A2 in two's complement, then the words.
    pub(crate) fn numbers(&self) -> [u16; 16]
        ensures value { result ≡ saved_numbers self.now }
        ensures fits { PredictionFits self.now }
    {
        [
            self.b1.cast_unsigned(),
            self.b2.cast_unsigned(),
            self.b3.cast_unsigned(),
            self.b4.cast_unsigned(),
            self.b5.cast_unsigned(),
            self.b6.cast_unsigned(),
            self.a1.cast_unsigned(),
            self.a2.cast_unsigned(),
            self.dq1,
            self.dq2,
            self.dq3,
            self.dq4,
            self.dq5,
            self.dq6,
            self.sr1,
            self.sr2,
        ]
    }

    /// The variables with these numbers, B1 to B6, A1 and A2 in two's complement, then the words DQ1 to DQ6,
    /// SR1 and SR2; None if one of the last eight is not below 2048, as words are.
    pub fn of_numbers(numbers: [u16; 16], pk1: bool, pk2: bool) -> Option<Filter>
        ensures loaded { (s : Prediction) → PredictionFits s → numbers ≡ saved_numbers s → pk1 ≡ s.pk1
            → pk2 ≡ s.pk2 → result ≡ Some s }
        ensures read { IfSome result (λ s. (numbers ≡ saved_numbers s) × (pk1 ≡ s.pk1) × (pk2 ≡ s.pk2)) }
    {
        if !are_words(&numbers[8..]) {
            return None;
        }
        Some(Filter {
            b1: numbers[0].cast_signed(),
            b2: numbers[1].cast_signed(),
            b3: numbers[2].cast_signed(),
            b4: numbers[3].cast_signed(),
            b5: numbers[4].cast_signed(),
            b6: numbers[5].cast_signed(),
            a1: numbers[6].cast_signed(),
            a2: numbers[7].cast_signed(),
            dq1: numbers[8],
            dq2: numbers[9],
            dq3: numbers[10],
            dq4: numbers[11],
            dq5: numbers[12],
            dq6: numbers[13],
            sr1: numbers[14],
            sr2: numbers[15],
            pk1,
            pk2,
        })
    }
}

fn are_words(numbers: &[u16]) -> bool
    ensures { result ≡ list_all (λ number. nat_lt number 2048) numbers.now }
{
    numbers.iter().all(|number| *number < WORDS)
}
