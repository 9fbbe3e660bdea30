//! The trait of filters, and their one loop from a source to a sink (`octets_through`).

ghost use Rattle.std.specs.Prelude.{◌≡◌, ◌-◌, ◌^◌, ◌<◌, ◌++◌, ℕ, List, [], length, true, IfOk, IfErr};
ghost use Rattle.gw_records.specs.Streams.{CanBegin, HadRoom};
ghost use Rattle.gw_filter.specs.Filter.{Filters, FiltersUntil};

use gw_records::{MAX_READS, NO_TOTALS, RunFault, Sink, Source, Totals, read_behind, write_all};

// Room for each read: 32 KiB, an eighth of a second of the trunk.
const BUFFER_LEN: usize = 32_768;

/// Takes the octets of a buffer and returns as many for them.
pub trait BufferFilter {
    /// The filter has taken these octets, and has returned these for them.
    ghost has_returned: { Self → List ℕ → List ℕ → Type 0 };

    /// Replaces the next octets of the stream by those that the filter returns.
    fn filter_buffer(&mut self, octets: &mut [u8])
        ensures len { length octets.new ≡ length octets.old }
        ensures stands { (taken returned : List ℕ) → has_returned self.old taken returned
            → has_returned self.new (taken ++ octets.old) (returned ++ octets.new) };

    /// Whether it returns octets as they come.
    fn is_off(&self) -> bool
        ensures { result ≡ true → (taken returned octets : List ℕ) → has_returned self.now taken returned
            → has_returned self.now (taken ++ octets) (returned ++ octets) };
}

/// Writes what the filter returns for the octets of the source.
///
/// All of it is written before the source is read again. The octets are counted. No memory is taken.
///
/// # Errors
///
/// [`RunFault::Read`] if the source failed, or after 2^62 reads: the octets for all that it gave are written.
/// [`RunFault::Write`] if the sink failed: it has a prefix of what would be written.
pub fn octets_through<F: BufferFilter, S: Source, K: Sink>(
    filter: &mut F,
    source: &mut S,
    sink: &mut K,
) -> Result<Totals, RunFault>
    requires begins { F.has_returned filter.old [] [] }
    requires streams { CanBegin (S.tells source.old) (K.tells sink.old) }
    ensures ok { IfOk result (Filters (F.has_returned filter.new)
        (S.tells source.old) (S.tells source.new) (K.tells sink.old) (K.tells sink.new)) }
    ensures fault { IfErr result (FiltersUntil (F.has_returned filter.new)
        (S.tells source.old) (S.tells source.new) (K.tells sink.old) (K.tells sink.new)) }
    ensures had_room { HadRoom (S.was_offered source.new) }
{
    let mut buffer = [0u8; BUFFER_LEN];
    let mut octets = 0u64;
    'reading: for turn in 0..MAX_READS {
        prove!(turn < MAX_READS);
        let Ok(n) = read_behind(source, &mut buffer, 0) else {
            return Err(RunFault::Read);
        };
        if n == 0 {
            return Ok(Totals {
                octets,
                ..NO_TOTALS
            });
        }
        filter.filter_buffer(&mut buffer[..n]);
        write_all(sink, &buffer[..n])?;
        octets = octets.saturating_add(n as u64);
    }
    Err(RunFault::Read)
}
