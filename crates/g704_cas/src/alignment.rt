//! The frame of an octet of slot 16, and when multiframe alignment is found and lost (`MfAligner`).

ghost use Rattle.std.specs.Prelude.{◌≡◌, ◌+◌, ◌%◌, ◌<◌, ℕ, List, Option, [], ◌∷◌, ◌++◌, length};
ghost use Rattle.g704_cas.specs.Search.{is_mfas, is_not_zero};
ghost use Rattle.g704_framing.specs.Places.{place_since};
ghost use Rattle.g704_cas.specs.Placing.{multiframes, place, alarm_after, frame_of};
ghost use Rattle.g704_cas.specs.Aligner.{IsAlignedRun, Describes, Follows, HasHistory};

mod saving;

const FRAMES: u8 = 16;

// Bits 1 to 4 of an octet, which are 0 in the multiframe alignment signal.
const SIGNAL_BITS: u8 = 0xf0;

/// The place of an octet of time slot 16 in the multiframe.
#[derive(Clone, Copy, Debug, PartialEq, Eq)]
pub enum MfPlace {
    /// No alignment: it is being searched for.
    Hunting,
    /// The octet is in the frame with this number, 0 to 15.
    Frame(u8),
}

#[derive(Clone, Copy, Debug, PartialEq, Eq)]
enum SyncState {
    // No alignment: whether there is an octet before, and it is not 0.
    Searching { after_nonzero: bool },
    // Multiframes are aligned: the frame of the next octet, and whether the last octet of a frame 0 was
    // wrong.
    Aligned { frame: u8, wrong: bool },
}

// The search at the start of a stream.
const AT_FIRST: SyncState = SyncState::Searching {
    after_nonzero: false,
};

/// Finds and follows multiframe alignment in time slot 16.
///
/// It returns the frame of each octet.
#[derive(Clone, Copy, Debug, PartialEq, Eq)]
pub struct MfAligner {
    phase: SyncState,
}

impl MfAligner {
    /// An aligner at the start of a stream.
    pub fn new() -> Self
        ensures { HasHistory result [] }
    {
        MfAligner { phase: AT_FIRST }
    }

    /// Takes the next octet of time slot 16 and returns its place.
    pub fn slot16(&mut self, octet: u8) -> MfPlace
        ensures placed { (history : List ℕ) → HasHistory self.old history
            → result ≡ place (history ++ octet ∷ []) (length history) }
        ensures stands { (history : List ℕ) → HasHistory self.old history
            → HasHistory self.new (history ++ octet ∷ []) }
        ensures in_multiframe { frame_of result < 16 }
    {
        let before = self.phase;
        self.phase = phase_after(before, octet);
        place_between(before, self.phase)
    }

    /// Restarts after a loss of frame alignment.
    pub fn lost(&mut self)
        ensures { HasHistory self.new [] }
    {
        self.phase = AT_FIRST;
    }

    /// Whether there is no multiframe alignment, as before the first octet.
    pub fn alarm(&self) -> bool
        ensures { (history : List ℕ) → HasHistory self.now history → result ≡ alarm_after history }
    {
        match self.phase {
            SyncState::Searching { .. } => true,
            SyncState::Aligned { .. } => false,
        }
    }
}

// Whether an octet of slot 16 is right for frame 0.
#[tactic(auto, unfolding(crate::specs::Search::is_mfas))]
fn is_mfas(octet: u8) -> bool
    ensures { result ≡ is_mfas octet }
{
    octet & SIGNAL_BITS == 0
}

// The phase of multiframe alignment after an octet of slot 16.
fn phase_after(phase: SyncState, octet: u8) -> SyncState
    ensures { (before : Option ℕ) (octets : List ℕ) → Describes phase before octets
        → Follows result before (octets ++ octet ∷ []) }
{
    match phase {
        SyncState::Searching { after_nonzero } => searched(after_nonzero, octet),
        SyncState::Aligned { frame, wrong } => after_aligned(frame, wrong, octet),
    }
}

// The phase after an octet read by a search.
fn searched(after_nonzero: bool, octet: u8) -> SyncState
    ensures { (before : Option ℕ) → after_nonzero ≡ is_not_zero before → Follows result before (octet ∷ []) }
{
    if after_nonzero && is_mfas(octet) {
        SyncState::Aligned {
            frame: 1,
            wrong: false,
        }
    } else {
        SyncState::Searching {
            after_nonzero: octet != 0,
        }
    }
}

// The phase after an octet in alignment.
fn after_aligned(frame: u8, wrong: bool, octet: u8) -> SyncState
    ensures { (before : Option ℕ) (octets : List ℕ) → IsAlignedRun before frame wrong octets
        → Follows result before (octets ++ octet ∷ []) }
{
    if frame == 0 {
        let right = is_mfas(octet);
        if wrong && !right {
            SyncState::Searching {
                after_nonzero: true,
            }
        } else {
            SyncState::Aligned {
                frame: 1,
                wrong: !right,
            }
        }
    } else {
        SyncState::Aligned {
            frame: next_frame(frame),
            wrong,
        }
    }
}

// The frame of the next octet of slot 16.
fn next_frame(frame: u8) -> u8
    ensures { frame < 16 → result ≡ (frame + 1) % 16 }
{
    if frame < FRAMES - 1 { frame + 1 } else { 0 }
}

// The place of the octet between two phases.
fn place_between(before: SyncState, after: SyncState) -> MfPlace
    ensures placed { (earlier : Option ℕ) (octets : List ℕ) (octet : ℕ) → Describes before earlier octets
        → Follows after earlier (octets ++ octet ∷ [])
        → result ≡ place_since multiframes earlier (octets ++ octet ∷ []) (length octets) }
    ensures in_multiframe { frame_of result < 16 }
{
    match (before, after) {
        (_, SyncState::Searching { .. }) => MfPlace::Hunting,
        (SyncState::Searching { .. }, SyncState::Aligned { .. }) => MfPlace::Frame(0),
        (SyncState::Aligned { frame, .. }, SyncState::Aligned { .. }) => MfPlace::Frame(
            frame % FRAMES,
        ),
    }
}
