//! What comes of a trunk, as a filter returns it (`FilteredInput`).

ghost use Rattle.std.specs.Prelude.{◌≡◌, []};

use gw_filter::BufferFilter;
use gw_records::{Log, RecordHead};
use gw_trunk::{DeviceFault, DeviceRead, TrunkInput};

/// The octets of a trunk, each replaced by the one that a filter returns for it. Clients, waits and the end
/// are the trunk's own.
#[derive(Drop)]
pub struct FilteredInput<I: TrunkInput, F: BufferFilter> {
    incoming: I,
    filter: F,
    log: Log,
    ghost filtered: { ∥ F.has_returned filter (I.came incoming) log.octets ∥₁ },
}

impl<I: TrunkInput, F: BufferFilter> FilteredInput<I, F> {
    /// A trunk of which nothing has come yet, and its filter.
    pub fn new(incoming: I, filter: F) -> FilteredInput<I, F>
        requires came { I.came incoming ≡ [] }
        requires begins { F.has_returned filter [] [] }
        ensures incoming { result.incoming ≡ incoming }
        ensures filter { result.filter ≡ filter }
        ensures log { result.log.octets ≡ [] }
    {
        FilteredInput {
            incoming,
            filter,
            log: Log::new(),
        }
    }
}

impl<I: TrunkInput + Drop, F: BufferFilter> FilteredInput<I, F> {
    /// The filter.
    pub fn into_filter(self) -> F
        ensures { result ≡ self.filter }
    {
        let FilteredInput { filter, .. } = self;
        filter
    }
}

impl<I: TrunkInput, F: BufferFilter> TrunkInput for FilteredInput<I, F> {
    ghost came = { λ d. d.log.octets };

    ghost asked = { λ d. I.asked d.incoming };

    ghost told = { λ d. I.told d.incoming };

    ghost has_ended = { λ d. I.has_ended d.incoming };

    ghost has_failed = { λ d. I.has_failed d.incoming };

    ghost waits = { λ d. I.waits d.incoming };

    ghost is_turn = { λ d. I.is_turn d.incoming };

    ghost is_empty = { λ d. I.is_empty d.incoming };

    ghost clients_are_quiet = { λ d. I.clients_are_quiet d.incoming };

    ghost is_idle = { λ d. I.is_idle d.incoming };

    fn read(&mut self, room: &mut [u8]) -> Result<DeviceRead, DeviceFault> {
        match self.incoming.read(room) {
            Ok(DeviceRead::Octets(n)) => {
                self.filter.filter_buffer(&mut room[..n]);
                self.log.append(room, n);
                Ok(DeviceRead::Octets(n))
            }
            Ok(DeviceRead::NoneNow) => Ok(DeviceRead::NoneNow),
            Ok(DeviceRead::Ended) => Ok(DeviceRead::Ended),
            Err(fault) => Err(fault),
        }
    }

    fn command(&mut self) -> Option<RecordHead> {
        self.incoming.command()
    }

    fn answer(&mut self, octets: &[u8]) {
        self.incoming.answer(octets);
    }

    fn wait(&mut self) {
        self.incoming.wait();
    }
}
