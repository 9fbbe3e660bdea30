//! The frame aligner saved as octets, and loaded from them.

ghost use Rattle.std.specs.Prelude.{◌≡◌, ◌++◌, ℕ, List, OnOk, IfSome, Some};
ghost use Rattle.g704_align.specs.declared.alignment.Aligner.{Aligner};
ghost use Rattle.g704_align.specs.Saved.{saved_aligner};

use crate::alignment::{Aligner, SyncState};
use saved_octets::OctetReader;
use std::alloc::AllocError;

impl Aligner {
    /// Appends the octets of the aligner.
    pub fn save(&self, out: &mut Vec<u8>) -> Result<(), AllocError>
        ensures { OnOk result (out.new.items ≡ out.old.items ++ saved_aligner self.now) }
    {
        match self.phase {
            SyncState::Searching => out.extend_from_slice(&[0]),
            SyncState::Candidate { age } => out.extend_from_slice(&[1, age]),
            SyncState::Aligned {
                age,
                wrong_fas,
                wrong_nfas,
            } => out.extend_from_slice(&[2, age, wrong_fas, wrong_nfas]),
        }
    }

    /// Reads a saved aligner; None if the octets are not those of one.
    pub fn load(octets: &mut OctetReader<'_>) -> Option<Aligner>
        ensures loaded { (aligner : Aligner) (rest : List ℕ) → octets.old ≡ saved_aligner aligner ++ rest
            → (result ≡ Some aligner) × (octets.new ≡ rest) }
        ensures read { IfSome result (λ aligner. octets.old ≡ saved_aligner aligner ++ octets.new) }
    {
        let phase = match octets.read_u8()? {
            0 => SyncState::Searching,
            1 => SyncState::Candidate {
                age: octets.read_u8()?,
            },
            2 => SyncState::Aligned {
                age: octets.read_u8()?,
                wrong_fas: octets.read_u8()?,
                wrong_nfas: octets.read_u8()?,
            },
            _ => return None,
        };
        Some(Aligner { phase })
    }
}
