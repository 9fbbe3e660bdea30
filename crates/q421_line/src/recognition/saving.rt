//! The recognition of pairs saved as octets, and loaded from them.

ghost use Rattle.std.specs.Prelude.{◌≡◌, ◌++◌, ◌∷◌, ◌<◌, ℕ, Option, List, OnOk, IfSome, Some};
ghost use Rattle.q421_line.specs.declared.recognition.Recognition.{Recognition};
ghost use Rattle.q421_line.specs.Saved.{saved_pair, saved_recognition, PairsFit};

use crate::pairs::Pair;
use crate::recognition::Recognition;
use saved_octets::OctetReader;
use std::alloc::AllocError;

// The number for no pair.
const NO_PAIR: u8 = 4;

impl Recognition {
    pub(crate) fn save(&self, out: &mut Vec<u8>) -> Result<(), AllocError>
        ensures { OnOk result (out.new.items ≡ out.old.items ++ saved_recognition self.now) }
    {
        out.extend_from_slice(&[
            pair_number(self.latest),
            self.run,
            pair_number(self.recognised),
        ])
    }

    pub(crate) fn load(octets: &mut OctetReader<'_>) -> Option<Recognition>
        ensures loaded { (r : Recognition) (rest : List ℕ) → PairsFit r
            → octets.old ≡ saved_recognition r ++ rest → (result ≡ Some r) × (octets.new ≡ rest) }
        ensures read { IfSome result (λ r. octets.old ≡ saved_recognition r ++ octets.new) }
    {
        let latest = load_pair(octets)?;
        let run = octets.read_u8()?;
        let recognised = load_pair(octets)?;
        Some(Recognition {
            latest,
            run,
            recognised,
        })
    }

    // Each pair has two bits.
    pub(crate) fn fits(&self)
        ensures { PairsFit self.now }
    {
        let _latest = pair_number(self.latest);
        let _recognised = pair_number(self.recognised);
    }
}

// A pair as a number, or `NO_PAIR`.
fn pair_number(pair: Option<Pair>) -> u8
    ensures value { result ≡ saved_pair pair }
    ensures fits { IfSome pair (λ p. p < 4) }
{
    match pair {
        Some(pair) => pair.get(),
        None => NO_PAIR,
    }
}

fn load_pair(octets: &mut OctetReader<'_>) -> Option<Option<Pair>>
    ensures loaded { (pair : Option ℕ) (rest : List ℕ) → IfSome pair (λ p. p < 4)
        → octets.old ≡ saved_pair pair ∷ rest → (result ≡ Some pair) × (octets.new ≡ rest) }
    ensures read { IfSome result (λ pair. octets.old ≡ saved_pair pair ∷ octets.new) }
{
    let number = octets.read_u8()?;
    if number < NO_PAIR {
        Some(Some(Pair::of_bits(number)))
    } else if number == NO_PAIR {
        Some(None)
    } else {
        None
    }
}
