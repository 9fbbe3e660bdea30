//! The multiframe aligner saved as octets, and loaded from them.

ghost use Rattle.std.specs.Prelude.{◌≡◌, ◌++◌, ℕ, List, OnOk, IfSome, Some};
ghost use Rattle.g704_cas.specs.declared.alignment.MfAligner.{MfAligner};
ghost use Rattle.g704_cas.specs.Saved.{saved_mf_aligner};

use crate::alignment::{MfAligner, SyncState};
use saved_octets::OctetReader;
use std::alloc::AllocError;

impl MfAligner {
    /// Appends the octets of the aligner.
    pub fn save(&self, out: &mut Vec<u8>) -> Result<(), AllocError>
        ensures { OnOk result (out.new.items ≡ out.old.items ++ saved_mf_aligner self.now) }
    {
        match self.phase {
            SyncState::Searching { after_nonzero } => {
                out.extend_from_slice(&[0, u8::from(after_nonzero)])
            }
            SyncState::Aligned { frame, wrong } => {
                out.extend_from_slice(&[1, frame, u8::from(wrong)])
            }
        }
    }

    /// Reads a saved aligner; None if the octets are not those of one.
    pub fn load(octets: &mut OctetReader<'_>) -> Option<MfAligner>
        ensures loaded { (aligner : MfAligner) (rest : List ℕ)
            → octets.old ≡ saved_mf_aligner aligner ++ rest
            → (result ≡ Some aligner) × (octets.new ≡ rest) }
        ensures read { IfSome result (λ aligner. octets.old ≡ saved_mf_aligner aligner ++ octets.new) }
    {
        let phase = match octets.read_u8()? {
            0 => SyncState::Searching {
                after_nonzero: octets.read_bool()?,
            },
            1 => SyncState::Aligned {
                frame: octets.read_u8()?,
                wrong: octets.read_bool()?,
            },
            _ => return None,
        };
        Some(MfAligner { phase })
    }
}
