//! The counts of a checked trunk: multiframes found and lost, submultiframes errored (`TrunkChecker`).

ghost use Rattle.std.specs.Prelude.{◌≡◌, ◌∷◌, ◌++◌, ℕ, List, [], Some};
ghost use Rattle.g704_crc4.specs.Receivers.{ChecksTrunk};
ghost use Rattle.g704_crc4.specs.ReceiverCounts.{receiver_counts_of, receiver_counts_with, count_with};

use crate::checking::Crc4Event;
use crate::receiving::{Receiver, ReceiverEvent};

/// The counts of a trunk.
///
/// They saturate.
#[derive(Clone, Copy, Debug, PartialEq, Eq)]
pub struct ReceiverCounts {
    /// Submultiframes that were checked.
    pub submultiframes: u64,
    /// Errored submultiframes.
    pub errored: u64,
    /// E bits that report a submultiframe errored at the far end.
    pub far_end_errored: u64,
    /// How often CRC multiframe alignment was found.
    pub found: u64,
    /// How often it was lost.
    pub lost: u64,
    /// How often frame alignment was given up, with 915 of a thousand submultiframes errored.
    pub given_up: u64,
}

/// Follows a trunk and counts its CRC-4 multiframes and errors.
#[derive(Clone, Copy, Debug, PartialEq, Eq)]
pub struct TrunkChecker {
    receiver: Receiver,
    receiver_counts: ReceiverCounts,
}

impl TrunkChecker {
    /// A checker at the start of a stream.
    pub fn new() -> Self
        ensures { ChecksTrunk result [] }
    {
        TrunkChecker {
            receiver: Receiver::new(),
            receiver_counts: ReceiverCounts {
                submultiframes: 0,
                errored: 0,
                far_end_errored: 0,
                found: 0,
                lost: 0,
                given_up: 0,
            },
        }
    }

    /// Takes the next octets of the trunk.
    pub fn octets(&mut self, octets: &[u8])
        ensures { (history : List ℕ) → ChecksTrunk self.old history
            → ChecksTrunk self.new (history ++ octets.now) }
    {
        let mut at = 0;
        while at < octets.len() {
            self.octet(octets[at]);
            at += 1;
            at += self.receiver.pass_rest(&octets[at..]);
        }
    }

    // Takes the next octet of the trunk.
    fn octet(&mut self, octet: u8)
        ensures { (history : List ℕ) → ChecksTrunk self.old history
            → ChecksTrunk self.new (history ++ octet ∷ []) }
    {
        if let Some(learned) = self.receiver.octet(octet) {
            self.receiver_counts = receiver_counts_with(self.receiver_counts, learned);
        }
    }

    /// The counts of the trunk so far.
    pub fn receiver_counts(&self) -> ReceiverCounts
        ensures { (history : List ℕ) → ChecksTrunk self.now history → result ≡ receiver_counts_of history }
    {
        self.receiver_counts
    }
}

// The counts of a trunk after one more octet's event.
#[inline(never)]
fn receiver_counts_with(receiver_counts: ReceiverCounts, learned: ReceiverEvent) -> ReceiverCounts
    ensures { result ≡ receiver_counts_with receiver_counts (Some learned) }
{
    match learned {
        ReceiverEvent::Found => ReceiverCounts {
            found: count_with(receiver_counts.found, true),
            ..receiver_counts
        },
        ReceiverEvent::Lost => ReceiverCounts {
            lost: count_with(receiver_counts.lost, true),
            ..receiver_counts
        },
        ReceiverEvent::GivenUp => ReceiverCounts {
            submultiframes: count_with(receiver_counts.submultiframes, true),
            errored: count_with(receiver_counts.errored, true),
            lost: count_with(receiver_counts.lost, true),
            given_up: count_with(receiver_counts.given_up, true),
            ..receiver_counts
        },
        ReceiverEvent::Received(Crc4Event::Block { right }) => ReceiverCounts {
            submultiframes: count_with(receiver_counts.submultiframes, true),
            errored: count_with(receiver_counts.errored, !right),
            ..receiver_counts
        },
        ReceiverEvent::Received(Crc4Event::FarEnd { right }) => ReceiverCounts {
            far_end_errored: count_with(receiver_counts.far_end_errored, !right),
            ..receiver_counts
        },
    }
}

// A count of the trunk, one higher if `more` is set.
fn count_with(count: u64, more: bool) -> u64
    ensures { result ≡ count_with count more }
{
    if more { count.saturating_add(1) } else { count }
}
