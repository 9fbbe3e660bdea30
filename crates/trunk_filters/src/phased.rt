//! A filter that begins within a multiframe (`PhasedFilter`).

ghost use Rattle.std.specs.Prelude.{◌≡◌, ◌<◌, []};
ghost use Rattle.trunk_filters.specs.Filters.{ReturnsBehind};

use gw_filter::BufferFilter;
use gw_records::AtStart;

/// A filter that was given octets of ones before the first octet, as many as its place says. What it
/// returned for the ones is dropped.
#[derive(Drop)]
pub struct PhasedFilter<F: BufferFilter> {
    filter: F,
    place: AtStart<usize>,
}

impl<F: BufferFilter> PhasedFilter<F> {
    /// A filter at this place of the first multiframe.
    pub fn new(mut filter: F, place: usize) -> PhasedFilter<F>
        requires place { place < 512 }
        requires begins { F.has_returned filter [] [] }
        ensures place { result.place.value ≡ place }
        ensures begins { ReturnsBehind result.place.value (F.has_returned result.filter) [] [] }
    {
        let mut ones = [0xffu8; 512];
        filter.filter_buffer(&mut ones[..place]);
        PhasedFilter {
            filter,
            place: AtStart::of(&place),
        }
    }
}

impl<F: BufferFilter> BufferFilter for PhasedFilter<F> {
    ghost has_returned = { λ p. ReturnsBehind p.place.value (F.has_returned p.filter) };

    fn filter_buffer(&mut self, octets: &mut [u8]) {
        self.filter.filter_buffer(octets);
    }

    fn is_off(&self) -> bool {
        false
    }
}
