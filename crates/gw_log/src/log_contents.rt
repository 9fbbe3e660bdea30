//! What the files of a trunk's log have, and which of it is loaded (`LogContents`).

ghost use Rattle.std.specs.Prelude.{◌≡◌, IfOk, IfErr, IfSome, true, false};
ghost use Rattle.log_files.specs.Area.{IsBlank};
ghost use Rattle.log_files.specs.Loading as loading;
ghost use Rattle.gw_log.specs.LogContents.{contents_of};
ghost use Rattle.gw_log.specs.Resuming.{AreDamaged, IsFoundIn};
ghost use Rattle.gw_log.specs.declared.state.ResumeFault.TheVariants.{Damaged};

use crate::state::ResumeFault;
use log_files::{Loaded, PairContents, is_blank, newest};

/// What a pair of files has: of each its head, and what this says is behind.
#[derive(Drop)]
pub struct PairOctets {
    /// Of the file of the state.
    pub state: Vec<u8>,
    /// Of the file of the records behind it.
    pub records: Vec<u8>,
}

/// What the files of a log have.
#[derive(Drop)]
pub struct LogContents {
    /// The files `state.0` and `records.0`.
    pub first: PairOctets,
    /// The files `state.1` and `records.1`.
    pub second: PairOctets,
}

impl PairOctets {
    // The octets of the pair.
    fn contents(&self) -> PairContents<'_>
        ensures { loading.contents_of result ≡ contents_of self.now }
    {
        PairContents {
            state: self.state.as_slice(),
            records: self.records.as_slice(),
        }
    }

    // Whether its state is blank.
    fn is_blank(&self) -> bool
        ensures yes { result ≡ true → IsBlank self.now.state.items }
        ensures no { result ≡ false → ¬ IsBlank self.now.state.items }
    {
        is_blank(self.state.as_slice())
    }
}

impl LogContents {
    // Whether both states are blank.
    fn are_blank(&self) -> bool
        ensures yes { result ≡ true
            → IsBlank self.now.first.state.items × IsBlank self.now.second.state.items }
        ensures no { result ≡ false
            → ¬ (IsBlank self.now.first.state.items × IsBlank self.now.second.state.items) }
    {
        self.first.is_blank() && self.second.is_blank()
    }

    /// What is loaded; None if nothing was ever kept.
    ///
    /// # Errors
    ///
    /// [`ResumeFault::Damaged`] if something was kept and nothing is whole, or it is not known which is
    /// newer.
    pub fn newest(&self) -> Result<Option<Loaded<'_>>, ResumeFault>
        ensures ok { IfOk result (IsFoundIn (contents_of self.now.first) (contents_of self.now.second)) }
        ensures counted { IfOk result (λ found. IfSome found loading.IsCounted) }
        ensures err { IfErr result (λ fault. (fault ≡ Damaged)
            × AreDamaged (contents_of self.now.first) (contents_of self.now.second)) }
    {
        match newest(&self.first.contents(), &self.second.contents()) {
            Ok(Some(loaded)) => Ok(Some(loaded)),
            Ok(None) => {
                if self.are_blank() {
                    Ok(None)
                } else {
                    Err(ResumeFault::Damaged)
                }
            }
            Err(_) => Err(ResumeFault::Damaged),
        }
    }
}
