//! A filter that is used or not (`SwitchedFilter`).

ghost use Rattle.std.specs.Prelude.{◌≡◌, ℕ, List, MatchOption};

use gw_filter::BufferFilter;

/// A filter, if it is used; otherwise octets pass as they came.
#[derive(Drop)]
pub struct SwitchedFilter<F> {
    filter: Option<F>,
}

impl<F> SwitchedFilter<F> {
    /// The filter, if there is one.
    pub fn new(filter: Option<F>) -> SwitchedFilter<F>
        ensures { result.filter ≡ filter }
    {
        SwitchedFilter { filter }
    }

    /// The filter, if there is one.
    pub fn into_filter(self) -> Option<F>
        ensures { result ≡ self.filter }
    {
        let SwitchedFilter { filter } = self;
        filter
    }
}

impl<F: BufferFilter> BufferFilter for SwitchedFilter<F> {
    ghost has_returned = { λ s octets returned. MatchOption s.filter (returned ≡ octets)
        (λ f. F.has_returned f octets returned) };

    fn filter_buffer(&mut self, octets: &mut [u8]) {
        if let Some(filter) = &mut self.filter {
            filter.filter_buffer(octets);
        }
    }

    fn is_off(&self) -> bool {
        self.filter.is_none()
    }
}
