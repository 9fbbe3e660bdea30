//! What returns any number of octets for those that are sent (`PieceFilter`).

ghost use Rattle.std.specs.Prelude.{◌≡◌, ◌<◌, ◌≤◌, ◌++◌, ℕ, Bool, List, [], length, true, false};

use crate::switches::SwitchedFilter;
use arrayvec::ArrayVec;
use gw_filter::BufferFilter;

/// Takes octets by pieces, and returns any number for them.
pub trait PieceFilter {
    /// The filter has taken these octets, and has returned these for them.
    ghost has_returned: { Self → List ℕ → List ℕ → Type 0 };

    /// Whether it may return nothing yet for octets that it takes.
    ghost may_return_none: { Self → Bool };

    /// Takes the next octets of the stream, 512 at most, and puts what it returns for them into `returned`.
    fn pass(&mut self, octets: &[u8], returned: &mut ArrayVec<u8, 512>)
        requires few { length octets.now ≤ 512 }
        requires none { returned.old.items ≡ [] }
        ensures stands { (taken before : List ℕ) → has_returned self.old taken before
            → has_returned self.new (taken ++ octets.now) (before ++ returned.new.items) }
        ensures some { may_return_none self.new ≡ false → 0 < length octets.now
            → 0 < length returned.new.items };

    /// Whether it returns octets as they come.
    fn is_off(&self) -> bool
        ensures { result ≡ true → (taken returned octets : List ℕ) → has_returned self.now taken returned
            → has_returned self.now (taken ++ octets) (returned ++ octets) };
}

impl<F: BufferFilter> PieceFilter for SwitchedFilter<F> {
    ghost has_returned = { ⟦<SwitchedFilter<F> as BufferFilter>⟧.has_returned };

    ghost may_return_none = { λ _. false };

    fn pass(&mut self, octets: &[u8], returned: &mut ArrayVec<u8, 512>) {
        let _ = returned.try_extend_from_slice(octets);
        self.filter_buffer(returned.as_mut_slice());
    }

    fn is_off(&self) -> bool {
        BufferFilter::is_off(self)
    }
}
