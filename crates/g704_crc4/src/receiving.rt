//! When CRC-4 multiframes are found, and when frame alignment is given up for them (`Receiver`).

ghost use Rattle.std.specs.Prelude.{◌≡◌, ◌∷◌, ◌++◌, ◌+◌, ◌%◌, ◌<◌, ◌==◌, ℕ, Bool, true, false, List, []};
ghost use Rattle.std.specs.Prelude.{◌≤◌, length, slice_index, take, nat_le, is_some, if◌then◌else◌, Some};
ghost use Rattle.g704_crc4.specs.declared.receiving.MultiframeSync.TheVariants.{Hunting};
ghost use Rattle.g704_crc4.specs.Aligning.{learned, learned_of, followed, multiframe_in, checked_octets};
ghost use Rattle.g704_crc4.specs.Aligning.{is_given_up, is_excessive};
ghost use Rattle.g704_crc4.specs.ReceiverCounts.{tells_given_up, times_after};
ghost use Rattle.g704_crc4.specs.Receivers.{ReceivesAfter, IsSearched, IsStage, IsFollowed};
ghost use Rattle.g704_crc4.specs.Receivers.{GoesOn, BeginsAnew};

use crate::checking::{Checker, Crc4Event};
use crate::searching::find_multiframe;
use g704_align::{Aligner, Place};

// Octets of 8 ms.
const SEARCHED: u16 = 2048;

// Submultiframes counted together, and the errored ones among them that mean false frame alignment.
const TOGETHER: u16 = 1000;

const EXCESS: u16 = 915;

/// What a receiver learns from an octet of a trunk.
#[derive(Clone, Copy, Debug, PartialEq, Eq)]
pub enum ReceiverEvent {
    /// CRC multiframe alignment is found.
    Found,
    /// CRC multiframe alignment is lost with frame alignment.
    Lost,
    /// A submultiframe is errored, the 915th of a thousand: frame alignment is given up.
    GivenUp,
    /// A submultiframe or an E bit.
    Received(Crc4Event),
}

// The state of CRC multiframe alignment.
#[derive(Clone, Copy, Debug, PartialEq, Eq)]
enum MultiframeSync {
    // There is no frame alignment.
    Hunting,
    // CRC multiframe alignment is searched for in these 8 ms.
    Searching { count: u16 },
    // CRC multiframes are aligned.
    SubmultiframeCheck(SubmultiframeCheck),
}

// Received submultiframes, in a frame alignment with CRC multiframes.
#[derive(Clone, Copy, Debug, PartialEq, Eq)]
struct SubmultiframeCheck {
    // Octets before the first to check.
    to_come: u16,
    checker: Checker,
    // Submultiframes of the present thousand, and errored ones among them.
    known: u16,
    errored: u16,
}

/// Follows the CRC multiframes of a trunk by its octets.
#[derive(Clone, Copy, Debug, PartialEq, Eq)]
pub struct Receiver {
    aligner: Aligner,
    stage: MultiframeSync,
    // The octets of the 8 ms; before them, the last octet.
    searched: [u8; 2048],
}

impl Receiver {
    /// A receiver at the start of a stream.
    pub fn new() -> Self
        ensures { ReceivesAfter result [] }
    {
        Receiver {
            aligner: Aligner::new(),
            stage: MultiframeSync::Hunting,
            searched: [0; 2048],
        }
    }

    /// Takes the next octet of the trunk and returns what it shows.
    pub fn octet(&mut self, octet: u8) -> Option<ReceiverEvent>
        ensures reply { (history : List ℕ) → ReceivesAfter self.old history
            → result ≡ learned history octet }
        ensures stands { (history : List ℕ) → ReceivesAfter self.old history
            → ReceivesAfter self.new (history ++ octet ∷ []) }
    {
        match self.aligner.octet(octet) {
            Place::Hunting => self.hunt(octet),
            Place::Slot { .. } => self.follow(octet),
        }
    }

    /// Takes octets that show nothing, in CRC multiframes the rest of a frame at most, and returns how many.
    #[inline]
    pub(crate) fn pass_rest(&mut self, octets: &[u8]) -> usize
        ensures bound { result ≤ length octets.now }
        ensures stands { (history : List ℕ) → ReceivesAfter self.old history
            → ReceivesAfter self.new (history ++ take result octets.now) }
        ensures silent { (history : List ℕ) → ReceivesAfter self.old history
            → times_after is_some history (take result octets.now) ≡ 0 }
    {
        match &mut self.stage {
            MultiframeSync::SubmultiframeCheck(following) if following.to_come == 0 => {
                let quiet = following.checker.quiet_count().min(octets.len());
                let count = self.aligner.pass_rest(quiet);
                following.checker.pass_quiet(&octets[..count]);
                count
            }
            _ => 0,
        }
    }

    // Takes an octet without a time slot.
    #[inline(never)]
    fn hunt(&mut self, octet: u8) -> Option<ReceiverEvent>
        ensures reply { (part octets : List ℕ) → IsStage self.old.stage self.old.searched part octets
            → result ≡ learned_of octets [] }
        ensures stage { self.new.stage ≡ Hunting }
        ensures last { slice_index self.new.searched 0 ≡ octet }
        ensures aligner { self.new.aligner ≡ self.old.aligner }
        ensures room { length self.new.searched ≡ length self.old.searched }
    {
        let lost = matches!(self.stage, MultiframeSync::SubmultiframeCheck(_));
        self.searched[0] = octet;
        self.stage = MultiframeSync::Hunting;
        if lost {
            Some(ReceiverEvent::Lost)
        } else {
            None
        }
    }

    // Takes an octet with a time slot.
    fn follow(&mut self, octet: u8) -> Option<ReceiverEvent>
        ensures reply { (part before octets : List ℕ) → IsStage self.old.stage self.old.searched part before
            → GoesOn part octet before octets → length self.old.searched ≡ 2048
            → result ≡ learned_of before octets }
        ensures goes_on { (part before octets : List ℕ) → IsStage self.old.stage self.old.searched part before
            → GoesOn part octet before octets → length self.old.searched ≡ 2048 → is_given_up octets ≡ false
            → (self.new.aligner ≡ self.old.aligner)
            × IsStage self.new.stage self.new.searched (part ++ octet ∷ []) octets }
        ensures anew { (part before octets : List ℕ) → IsStage self.old.stage self.old.searched part before
            → GoesOn part octet before octets → length self.old.searched ≡ 2048 → is_given_up octets ≡ true
            → BeginsAnew self.new }
        ensures room { length self.new.searched ≡ length self.old.searched }
    {
        match &mut self.stage {
            MultiframeSync::SubmultiframeCheck(following) => {
                let learned = following.octet(octet);
                if gives_up(learned) {
                    self.begin_anew();
                }
                learned
            }
            MultiframeSync::Searching { count } => {
                let count = *count;
                self.search(count, octet)
            }
            MultiframeSync::Hunting => {
                self.searched[1] = octet;
                self.stage = MultiframeSync::Searching { count: 2 };
                None
            }
        }
    }

    // Takes an octet of the 8 ms, or the one behind them.
    #[inline(never)]
    fn search(&mut self, count: u16, octet: u8) -> Option<ReceiverEvent>
        ensures reply { (octets : List ℕ) → IsSearched count self.old.searched octets
            → length self.old.searched ≡ 2048 → result ≡ learned_of octets (octets ++ octet ∷ []) }
        ensures goes_on { (part octets : List ℕ) → IsSearched count self.old.searched octets
            → length self.old.searched ≡ 2048 → is_given_up (octets ++ octet ∷ []) ≡ false
            → (self.new.aligner ≡ self.old.aligner)
            × IsStage self.new.stage self.new.searched part (octets ++ octet ∷ []) }
        ensures anew { (octets : List ℕ) → IsSearched count self.old.searched octets
            → length self.old.searched ≡ 2048 → is_given_up (octets ++ octet ∷ []) ≡ true
            → BeginsAnew self.new }
        ensures room { length self.new.searched ≡ length self.old.searched }
    {
        if count < SEARCHED {
            self.searched[usize::from(count)] = octet;
            self.stage = MultiframeSync::Searching { count: count + 1 };
            return None;
        }
        if let Some(number) = find_multiframe(&self.searched) {
            self.stage = MultiframeSync::SubmultiframeCheck(SubmultiframeCheck::begun(
                number, octet,
            ));
            Some(ReceiverEvent::Found)
        } else {
            self.begin_anew();
            None
        }
    }

    // Searches for another frame alignment.
    fn begin_anew(&mut self)
        ensures anew { BeginsAnew self.new }
        ensures searched { self.new.searched ≡ self.old.searched }
    {
        self.aligner = Aligner::new();
        self.stage = MultiframeSync::Hunting;
    }
}

// Whether frame alignment is given up by 915 errored submultiframes.
fn gives_up(learned: Option<ReceiverEvent>) -> bool
    ensures { result ≡ tells_given_up learned }
{
    matches!(learned, Some(ReceiverEvent::GivenUp))
}

impl SubmultiframeCheck {
    // Follows multiframes, one of which begins at this double frame of the 8 ms, from the octet behind them.
    fn begun(number: usize, octet: u8) -> Self
        ensures { (octets : List ℕ) → length octets ≡ 2112 → multiframe_in octets ≡ Some number
            → IsFollowed result (octets ++ octet ∷ []) }
    {
        let mut following = SubmultiframeCheck {
            to_come: 64 * (number % 8) as u16,
            checker: Checker::new(),
            known: 0,
            errored: 0,
        };
        let _ = following.octet(octet);
        following
    }

    // Takes the next octet of the frame alignment.
    fn octet(&mut self, octet: u8) -> Option<ReceiverEvent>
        ensures reply { (octets : List ℕ) → IsFollowed self.old octets
            → result ≡ followed (octets ++ octet ∷ []) }
        ensures stands { (octets : List ℕ) → IsFollowed self.old octets
            → is_excessive (checked_octets (octets ++ octet ∷ [])) ≡ false
            → IsFollowed self.new (octets ++ octet ∷ []) }
    {
        if self.to_come > 0 {
            self.to_come -= 1;
            return None;
        }
        match self.checker.octet(octet) {
            Some(Crc4Event::Block { right }) => {
                if self.is_excess(right) {
                    Some(ReceiverEvent::GivenUp)
                } else {
                    Some(ReceiverEvent::Received(Crc4Event::Block { right }))
                }
            }
            Some(Crc4Event::FarEnd { right }) => Some(ReceiverEvent::Received(Crc4Event::FarEnd {
                right,
            })),
            None => None,
        }
    }

    // Counts a submultiframe in the present thousand.
    //
    // Returns whether too many of its thousand are errored.
    fn is_excess(&mut self, right: bool) -> bool
        ensures reply { self.old.errored < 915
            → result ≡ nat_le 915 (if right then self.old.errored else self.old.errored + 1) }
        ensures known { self.old.known < 1000 → self.new.known ≡ (self.old.known + 1) % 1000 }
        ensures errored { self.old.errored < 915 → self.new.errored ≡ (if self.new.known == 0 then 0
            else (if right then self.old.errored else self.old.errored + 1)) }
        ensures kept { (self.new.to_come ≡ self.old.to_come) × (self.new.checker ≡ self.old.checker) }
    {
        let errored = if right {
            self.errored
        } else {
            self.errored.saturating_add(1)
        };
        self.known = self.known.wrapping_add(1) % TOGETHER;
        self.errored = if self.known == 0 { 0 } else { errored };
        errored >= EXCESS
    }
}
