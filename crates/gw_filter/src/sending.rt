//! The filter `crc4`: CRC-4 multiframes put into a trunk, with E bits for what is reported.

ghost use Rattle.std.specs.Prelude.{◌≡◌, ◌≤◌, ◌∷◌, ◌++◌, ℕ, List, [], length, map, take, Some, IfOk, IfErr};
ghost use Rattle.g704_crc4.specs.Reporting.{SenderInput, Octet, Errored};
ghost use Rattle.gw_records.specs.Streams.{CanBegin};
ghost use Rattle.gw_filter.specs.Reports.{ReadsOnce};
ghost use Rattle.gw_filter.specs.Crc4.{SendsCrc4, HasSent, SendsMultiframes, SendsMultiframesUntil};

use crate::through::{BufferFilter, octets_through};
use g704_crc4::{Crc4Inserter, EBitReporter};
use gw_records::{RunFault, Sink, Source, Totals};

// Reports that are taken at once.
const MOST_REPORTS: usize = 64;

// Puts CRC-4 multiframes with E bits into a trunk.
#[derive(Clone, Copy, Debug, PartialEq, Eq)]
struct Crc4Sender {
    error_bits: EBitReporter,
    multiframer: Crc4Inserter,
}

impl Crc4Sender {
    // A sender at the start of a stream.
    fn new() -> Self
        ensures { SendsCrc4 result [] [] }
    {
        Crc4Sender {
            error_bits: EBitReporter::new(),
            multiframer: Crc4Inserter::new(),
        }
    }

    // Takes the next octet and returns it with its CRC-4 bit.
    fn octet(&mut self, octet: u8) -> u8
        ensures { (arrivals : List SenderInput) (sent : List ℕ) → SendsCrc4 self.old arrivals sent
            → SendsCrc4 self.new (arrivals ++ Octet octet ∷ []) (sent ++ result ∷ []) }
    {
        let has_bit = self.multiframer.next_has_e_bit();
        let with_bit = self.error_bits.octet(octet, has_bit);
        self.multiframer.octet(with_bit)
    }

    // Takes reports, each a number of errored submultiframes.
    fn report_all(&mut self, counts: &[u8])
        ensures { (arrivals : List SenderInput) (sent : List ℕ) → SendsCrc4 self.old arrivals sent
            → SendsCrc4 self.new (arrivals ++ map Errored counts.now) sent }
    {
        for count in counts.iter() {
            self.error_bits.report(u32::from(*count));
        }
    }

    // Replaces the next octets by those with CRC-4 bits.
    fn send_all(&mut self, octets: &mut [u8])
        ensures len { length octets.new ≡ length octets.old }
        ensures sent { (arrivals : List SenderInput) (sent : List ℕ) → SendsCrc4 self.old arrivals sent
            → SendsCrc4 self.new (arrivals ++ map Octet octets.old) (sent ++ octets.new) }
    {
        let mut at = 0;
        while at < octets.len() {
            octets[at] = self.octet(octets[at]);
            at += 1;
            at += self.multiframer.pass_rest(&octets[at..]);
        }
    }
}

// Takes the reports that have come to the front of `room`, 64 at most, by one read, and returns how many. A
// read that fails finds none now.
fn take_reports<R: Source>(reports: &mut R, room: &mut [u8]) -> usize
    requires { length room.old ≡ 64 }
    ensures bound { result ≤ length room.new }
    ensures reads { ReadsOnce (R.tells reports.old) (R.tells reports.new) (take result room.new) }
{
    match reports.read(room) {
        Ok(n) => n,
        Err(_) => 0,
    }
}

/// Puts CRC-4 multiframes into a trunk, and reports errored submultiframes by E bits.
///
/// Each octet that `reports` gives is a number of errored submultiframes that were received. Reports are
/// taken before each buffer of the trunk; so this source must never wait, and may fail where nothing has
/// come.
#[derive(Drop)]
pub struct ReportingSender<R> {
    sender: Crc4Sender,
    reports: R,
}

impl<R: Source> ReportingSender<R> {
    /// A sender at the start of a stream.
    pub fn new(reports: R) -> Self
        requires { (R.tells reports).given ≡ Some [] }
        ensures { HasSent result.sender (R.tells result.reports).given [] [] }
    {
        ReportingSender {
            sender: Crc4Sender::new(),
            reports,
        }
    }
}

impl<R: Source> BufferFilter for ReportingSender<R> {
    ghost has_returned = { λ s octets returned. HasSent s.sender (R.tells s.reports).given octets returned };

    fn filter_buffer(&mut self, octets: &mut [u8])
        ensures len { length octets.new ≡ length octets.old }
        ensures stands { (taken returned : List ℕ) → HasSent self.old.sender
            (R.tells self.old.reports).given taken returned → HasSent self.new.sender
            (R.tells self.new.reports).given (taken ++ octets.old) (returned ++ octets.new) }
        ensures reads { (reports : List ℕ)
            × ReadsOnce (R.tells self.old.reports) (R.tells self.new.reports) reports }
    {
        let mut room = [0u8; MOST_REPORTS];
        let n = take_reports(&mut self.reports, &mut room);
        self.sender.report_all(&room[..n]);
        self.sender.send_all(octets);
    }

    fn is_off(&self) -> bool {
        false
    }
}

/// Writes a trunk's octets with CRC-4 multiframes.
///
/// It writes one octet for each octet of the source, as `g704_crc4::Crc4Inserter` returns it. An E bit is 0
/// for each errored submultiframe that is reported, as `g704_crc4::EBitReporter` has it, otherwise 1. The
/// frames begin at the first octet, as those of a gateway. All are written before the source is read again.
/// The octets are counted. No memory is taken.
///
/// # Errors
///
/// Those of [`octets_through`].
pub fn crc4_stream<R: Source, S: Source, K: Sink>(
    sender: &mut ReportingSender<R>,
    source: &mut S,
    sink: &mut K,
) -> Result<Totals, RunFault>
    requires begins { HasSent sender.old.sender (R.tells sender.old.reports).given [] [] }
    requires streams { CanBegin (S.tells source.old) (K.tells sink.old) }
    ensures ok { IfOk result (SendsMultiframes (R.tells sender.new.reports).given
        (S.tells source.old) (S.tells source.new) (K.tells sink.old) (K.tells sink.new)) }
    ensures fault { IfErr result (SendsMultiframesUntil (R.tells sender.new.reports).given
        (S.tells source.old) (S.tells source.new) (K.tells sink.old) (K.tells sink.new)) }
{
    octets_through(sender, source, sink)
}
