//! To whom errored submultiframes are reported (`ReportSink`), and counts told (`CountsTeller`).

ghost use Rattle.std.specs.Prelude.{◌≡◌, ◌≤◌, ◌∷◌, ◌++◌, ℕ, List, [], Some, None, false, if◌then◌else◌};
ghost use Rattle.std.specs.Prelude.{⊤, length, IfOk};
ghost use Rattle.std.specs.Io.KnownBytes.{WriteAppends};
ghost use Rattle.gw_filter.specs.Reports.{RefusesReport, SystemTookReport};

use g704_crc4::ReceiverCounts;
use gw_records::{AtStart, Log, Source, SourceFault};
use std::io::{ErrorKind, Write};

/// A receiver of reports.
///
/// The relation is the type's own: a caller that does not know the type has it of a call alone.
pub trait ReportSink {
    /// The reports that were sent.
    ghost sent: { Self → List ℕ };

    /// Holds if the last report was not sent.
    ghost has_refused: { Self → Type 0 } = { λ _. ⊤ };

    /// Sends a number of errored submultiframes, and returns whether it was sent. It never waits.
    fn send(&mut self, count: u8) -> bool
        ensures sent { sent self.new ≡ (if result then sent self.old ++ count ∷ [] else sent self.old) }
        ensures refused { result ≡ false → has_refused self.new };
}

/// A receiver of counts.
///
/// The relation is the type's own: a caller that does not know the type has it of a call alone.
pub trait CountsTeller {
    ghost use Rattle.g704_crc4.specs.declared.counting.ReceiverCounts.{ReceiverCounts};

    /// Holds of the counts that it received last.
    ghost has_told: { Self → ReceiverCounts → Type 0 } = { λ _ _. ⊤ };

    /// Receives the counts up to now.
    fn tell(&mut self, counts: &ReceiverCounts)
        ensures { has_told self.new counts.now };
}

/// No reports: none come, and none can be sent.
#[derive(Clone, Copy, Debug, PartialEq, Eq)]
pub struct NoReports {
    failed: u64,
}

impl NoReports {
    /// No reports, before any read.
    pub fn new() -> NoReports
        ensures { result.failed ≡ 0 }
    {
        NoReports { failed: 0 }
    }
}

impl Source for NoReports {
    ghost tells = { λ s. record { failures = s.failed; reads = 0; given = Some []; to_come = None } };

    fn read(&mut self, _buf: &mut [u8]) -> Result<usize, SourceFault> {
        self.failed = self.failed.saturating_add(1);
        Err(SourceFault)
    }
}

impl ReportSink for NoReports {
    ghost sent = { λ _. [] };

    fn send(&mut self, _count: u8) -> bool {
        false
    }
}

// Writes octets from the front of `octets`, and returns how many.
#[tactic(auto, unfolding(crate::specs::Reports::SystemTookReport))]
fn write_once<W: Write>(writer: &mut W, octets: &[u8]) -> Result<usize, ErrorKind>
    ensures bound { IfOk result (λ n. n ≤ length octets.now) }
    ensures octets { WriteAppends (W.contents writer.old) (W.contents writer.new) result octets.now }
    ensures took { SystemTookReport writer.new result }
{
    match writer.write(octets) {
        Ok(n) => Ok(n),
        Err(error) => Err(error.kind()),
    }
}

/// A writer of std to which reports go, an octet each. It must never wait. If it is known what the writer
/// holds, that is what it held at the start and the reports.
#[derive(Drop)]
pub struct ToReports<W: Write> {
    writer: W,
    start: AtStart<W>,
    log: Log,
    ghost holds: { (before : List ℕ) → W.contents start.value ≡ Some before
        → W.contents writer ≡ Some (before ++ log.octets) },
}

impl<W: Write + Drop> ToReports<W> {
    /// A receiver of reports at the writer, before the first one.
    pub fn new(writer: W) -> ToReports<W>
        ensures log { result.log.octets ≡ [] }
        ensures start { result.start.value ≡ writer }
    {
        let start = AtStart::of(&writer);
        ToReports {
            writer,
            start,
            log: Log::new(),
        }
    }
}

impl<W: Write> ReportSink for ToReports<W> {
    ghost sent = { λ s. s.log.octets };

    ghost has_refused = { λ s. RefusesReport s.writer };

    fn send(&mut self, count: u8) -> bool {
        let report = [count];
        match write_once(&mut self.writer, &report) {
            Ok(1) => {
                self.log.append(&report, 1);
                true
            }
            Ok(_) => false,
            Err(_) => false,
        }
    }
}
