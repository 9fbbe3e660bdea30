//! Which E bits are sent as 0, to report errored submultiframes (`EBitReporter`).

ghost use Rattle.std.specs.Prelude.{◌≡◌, ◌∷◌, ◌++◌, List, []};
ghost use Rattle.g704_crc4.specs.Reporting.{SenderInput, Octet, Errored, octet_count, has_e_bit};
ghost use Rattle.g704_crc4.specs.Reporting.{octet_with_e};
ghost use Rattle.g704_crc4.specs.Reporting.{ReportsAfter};

use crate::sending::with_si;

/// Reports errored submultiframes by the E bits of a stream.
///
/// Multiframes begin at the first octet. Bit 1 of frames 13 and 15 of each is 0 for one errored submultiframe
/// that was received, otherwise 1 (ITU-T G.704, 2.3.3.4). No other bit changes.
#[derive(Clone, Copy, Debug, PartialEq, Eq)]
pub struct EBitReporter {
    // The errored submultiframes not yet reported.
    unreported: u32,
}

impl EBitReporter {
    /// Starts a stream, with nothing to report.
    pub fn new() -> Self
        ensures { ReportsAfter result [] }
    {
        EBitReporter { unreported: 0 }
    }

    /// Takes a number of errored submultiframes to report; at most 2^32 - 1 of them wait.
    pub fn report(&mut self, count: u32)
        ensures { (history : List SenderInput) → ReportsAfter self.old history
            → ReportsAfter self.new (history ++ Errored count ∷ []) }
    {
        self.unreported = self.unreported.saturating_add(count);
    }

    /// Takes the next octet and returns it with its E bit, if it has one.
    ///
    /// The caller knows whether it has: see [`crate::Crc4Inserter::next_has_e_bit`].
    pub fn octet(&mut self, octet: u8, has_bit: bool) -> u8
        ensures reply { (history : List SenderInput) → ReportsAfter self.old history
            → has_bit ≡ has_e_bit (octet_count history) → result ≡ octet_with_e history octet }
        ensures stands { (history : List SenderInput) → ReportsAfter self.old history
            → has_bit ≡ has_e_bit (octet_count history)
            → ReportsAfter self.new (history ++ Octet octet ∷ []) }
    {
        if !has_bit {
            return octet;
        }
        let is_right = self.unreported == 0;
        self.unreported = self.unreported.saturating_sub(1);
        with_si(octet, is_right)
    }
}
