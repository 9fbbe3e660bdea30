//! The filter `crc4 --check`: CRC-4 multiframes checked, errored submultiframes reported.

ghost use Rattle.std.specs.Prelude.{◌≡◌, ◌+◌, ◌-◌, ◌%◌, ◌^◌, ◌<◌, ◌≤◌, ◌++◌, ℕ, List, [], length, sum};
ghost use Rattle.std.specs.Prelude.{IfOk, IfErr};
ghost use Rattle.g704_crc4.specs.ReceiverCounts.{receiver_counts_of};
ghost use Rattle.g704_crc4.specs.Receivers.{ChecksTrunk};
ghost use Rattle.gw_records.specs.Streams.{CanBegin};
ghost use Rattle.gw_filter.specs.Check.{HasReported, ChecksMultiframes, ChecksMultiframesUntil};
ghost use Rattle.gw_filter.specs.Check.{AreReported, ReportsUpTo};

use crate::reports::{CountsTeller, ReportSink};
use crate::through::{BufferFilter, octets_through};
use g704_crc4::{ReceiverCounts, TrunkChecker};
use gw_records::{RunFault, Sink, Source, Totals};

// Octets of a second of the trunk.
const SECOND: usize = 256_000;

// The most errored submultiframes in one report.
const MOST_REPORTED: u64 = 255;

/// The counts of a checked trunk.
#[derive(Clone, Copy, Debug, PartialEq, Eq)]
pub struct Checked {
    /// The octets.
    pub totals: Totals,
    /// The counts of the multiframes.
    pub receiver_counts: ReceiverCounts,
    /// Errored submultiframes that were not reported.
    pub unreported: u64,
}

/// Checks the CRC-4 multiframes of a trunk.
///
/// The errored submultiframes of each buffer are reported behind it, at most 255 of them at once; those that
/// could not be sent are kept. The counts are written after each second of the trunk.
#[derive(Drop)]
pub struct ReportingChecker<R, T> {
    checker: TrunkChecker,
    reports: R,
    // The sum of the reports.
    reported: u64,
    teller: T,
    // Octets since the counts were written, less than those of a second.
    untold: usize,
    ghost few: { untold < 256000 },
}

impl<R: ReportSink, T: CountsTeller + Drop> ReportingChecker<R, T> {
    /// A checker at the start of a stream.
    pub fn new(reports: R, teller: T) -> Self
        requires { R.sent reports ≡ [] }
        ensures reports { result.reports ≡ reports }
        ensures begins { HasReported result.checker result.reported (R.sent result.reports) [] [] }
    {
        ReportingChecker {
            checker: TrunkChecker::new(),
            reports,
            reported: 0,
            teller,
            untold: 0,
        }
    }

    // Reports the errored submultiframes that are not reported yet, at most 255.
    fn report(&mut self)
        ensures checker { self.new.checker ≡ self.old.checker }
        ensures untold { self.new.untold ≡ self.old.untold }
        ensures stands { (octets returned : List ℕ) → HasReported self.old.checker self.old.reported
            (R.sent self.old.reports) octets returned
            → HasReported self.new.checker self.new.reported (R.sent self.new.reports) octets returned }
        ensures reports { (history : List ℕ) → ChecksTrunk self.old.checker history
            → ReportsUpTo 255 ((receiver_counts_of history).errored - self.old.reported)
            (R.sent self.old.reports) (R.sent self.new.reports) (R.has_refused self.new.reports) }
    {
        let unreported = self
            .checker
            .receiver_counts()
            .errored
            .saturating_sub(self.reported);
        if unreported == 0 {
            return;
        }
        let count = unreported.min(MOST_REPORTED);
        if self.reports.send(count as u8) {
            self.reported = self.reported.saturating_add(count);
        }
    }

    /// The counts now, with the totals of the octets.
    pub fn checked(&self, totals: Totals) -> Checked
        ensures totals { result.totals ≡ totals }
        ensures counts { (octets returned : List ℕ) → HasReported self.now.checker self.now.reported
            (R.sent self.now.reports) octets returned → (result.receiver_counts ≡ receiver_counts_of octets)
            × AreReported octets (R.sent self.now.reports) result.unreported }
    {
        let receiver_counts = self.checker.receiver_counts();
        Checked {
            totals,
            receiver_counts,
            unreported: receiver_counts.errored.saturating_sub(self.reported),
        }
    }

    /// Writes the counts now.
    pub fn tell_now(&mut self)
        ensures checker { self.new.checker ≡ self.old.checker }
        ensures reported { self.new.reported ≡ self.old.reported }
        ensures reports { self.new.reports ≡ self.old.reports }
        ensures told { (history : List ℕ) → ChecksTrunk self.old.checker history
            → T.has_told self.new.teller (receiver_counts_of history) }
        ensures untold { self.new.untold ≡ 0 }
    {
        let counts = self.checker.receiver_counts();
        self.teller.tell(&counts);
        self.untold = 0;
    }

    // Writes the counts if a second has passed with this many octets.
    fn tell(&mut self, len: usize)
        requires { len < 2 ^ 63 }
        ensures checker { self.new.checker ≡ self.old.checker }
        ensures reported { self.new.reported ≡ self.old.reported }
        ensures reports { self.new.reports ≡ self.old.reports }
        ensures told { 256000 ≤ self.old.untold + len → (history : List ℕ)
            → ChecksTrunk self.old.checker history → T.has_told self.new.teller (receiver_counts_of history) }
        ensures untold { self.new.untold ≡ (self.old.untold + len) % 256000 }
    {
        let untold = self.untold + len;
        if untold >= SECOND {
            self.tell_now();
        }
        self.untold = untold % SECOND;
    }
}

impl<R: ReportSink, T: CountsTeller + Drop> BufferFilter for ReportingChecker<R, T> {
    ghost has_returned = { λ c octets returned. HasReported c.checker c.reported (R.sent c.reports)
        octets returned };

    fn filter_buffer(&mut self, octets: &mut [u8])
        ensures len { length octets.new ≡ length octets.old }
        ensures stands { (taken returned : List ℕ) → HasReported self.old.checker self.old.reported
            (R.sent self.old.reports) taken returned → HasReported self.new.checker self.new.reported
            (R.sent self.new.reports) (taken ++ octets.old) (returned ++ octets.new) }
        ensures reports { (history : List ℕ) → ChecksTrunk self.old.checker history → ReportsUpTo 255
            ((receiver_counts_of (history ++ octets.old)).errored - self.old.reported)
            (R.sent self.old.reports) (R.sent self.new.reports) (R.has_refused self.new.reports) }
        ensures told { 256000 ≤ self.old.untold + length octets.old → (history : List ℕ)
            → ChecksTrunk self.old.checker history
            → T.has_told self.new.teller (receiver_counts_of (history ++ octets.old)) }
        ensures untold { self.new.untold ≡ (self.old.untold + length octets.old) % 256000 }
    {
        self.checker.octets(octets);
        self.report();
        self.tell(octets.len());
    }

    fn is_off(&self) -> bool {
        false
    }
}

/// Writes a trunk's octets unchanged, counts its CRC-4 multiframes and reports the errored ones.
///
/// The counts are those of `g704_crc4::TrunkChecker`. All octets are written before the source is read again.
/// No memory is taken.
///
/// # Errors
///
/// Those of [`octets_through`].
pub fn crc4_check_stream<R: ReportSink, T: CountsTeller + Drop, S: Source, K: Sink>(
    checker: &mut ReportingChecker<R, T>,
    source: &mut S,
    sink: &mut K,
) -> Result<Checked, RunFault>
    requires begins { HasReported checker.old.checker checker.old.reported
        (R.sent checker.old.reports) [] [] }
    requires streams { CanBegin (S.tells source.old) (K.tells sink.old) }
    ensures ok { IfOk result (ChecksMultiframes (S.tells source.old) (S.tells source.new)
        (K.tells sink.old) (K.tells sink.new) (R.sent checker.new.reports)) }
    ensures fault { IfErr result (ChecksMultiframesUntil (S.tells source.old) (S.tells source.new)
        (K.tells sink.old) (K.tells sink.new) (R.sent checker.new.reports)) }
{
    let totals = octets_through(checker, source, sink)?;
    Ok(checker.checked(totals))
}
