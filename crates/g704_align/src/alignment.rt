//! The place of an octet in its frame, and when frame alignment is found and lost (`Aligner`).

ghost use Rattle.std.specs.Prelude.{◌≡◌, ◌+◌, ◌%◌, ◌<◌, ◌≤◌, ℕ, List, Option, [], ◌∷◌, ◌++◌, length};
ghost use Rattle.std.specs.Prelude.{nat_lt, ◌≢◌, IfSome, IfNone};
ghost use Rattle.g704_align.specs.declared.alignment.Place.TheVariants.{Slot};
ghost use Rattle.g704_align.specs.Search.{is_fas, is_nfas};
ghost use Rattle.g704_framing.specs.Places.{place_since};
ghost use Rattle.g704_align.specs.Placing.{frames, place, alarm_after, number_of};
ghost use Rattle.g704_align.specs.Aligner.{IsCandidate, is_refuted, IsAlignedRun, count_after, Describes};
ghost use Rattle.g704_align.specs.Aligner.{Follows, HasHistory};

mod saving;

const FRAME: u8 = 32;

const TWO_FRAMES: u8 = 64;

const HALF_FRAME: u8 = 16;

// Consecutive errored octets tolerated before alignment is lost.
const TOLERATED: u8 = 2;

// The frame alignment signal, and the bits of a FAS octet that carry it.
const SIGNAL: u8 = 0x1b;

const SIGNAL_BITS: u8 = 0x7f;

// Bit 2 of an octet, which is set in an NFAS octet.
const BIT_2: u8 = 0x40;

/// The place of an octet in its frame.
#[derive(Clone, Copy, Debug, PartialEq, Eq)]
pub enum Place {
    /// No alignment: it is being searched for.
    Hunting,
    /// The octet is in a time slot of a frame.
    Slot {
        /// The number of the time slot, 0 to 31.
        number: u8,
        /// Whether the frame begins with the frame alignment signal.
        fas: bool,
    },
}

// The state of the search.
//
// An age counts the octets from the first FAS octet, which is included.
#[derive(Clone, Copy, Debug, PartialEq, Eq)]
enum SyncState {
    // No FAS octet has been found.
    Searching,
    // A FAS octet has been found.
    Candidate {
        age: u8,
    },
    // Frames are aligned.
    //
    // The age counts modulo two frames; the counts are those of consecutive errored octets.
    Aligned {
        age: u8,
        wrong_fas: u8,
        wrong_nfas: u8,
    },
}

/// Finds and follows frame alignment in a stream of octets.
///
/// It returns the place of each octet.
///
/// ```rust
/// let mut aligner = Aligner::new();
/// for octet in three_frames() {                               // 0x9B at 0 and 64, 0xDF at 32
///     assert_eq!(rt; aligner.octet(octet), Place::Hunting);
/// }
/// assert_eq!(rt; aligner.octet(0xD5), Place::Slot { number: 1, fas: true });      // alignment is found
/// ```
#[derive(Clone, Copy, Debug, PartialEq, Eq)]
pub struct Aligner {
    phase: SyncState,
}

impl Aligner {
    /// An aligner at the start of a stream.
    pub fn new() -> Self
        ensures { HasHistory result [] }
    {
        Aligner {
            phase: SyncState::Searching,
        }
    }

    /// Takes the next octet and returns its place.
    pub fn octet(&mut self, octet: u8) -> Place
        ensures placed { (history : List ℕ) → HasHistory self.old history
            → result ≡ place (history ++ octet ∷ []) (length history) }
        ensures stands { (history : List ℕ) → HasHistory self.old history
            → HasHistory self.new (history ++ octet ∷ []) }
        ensures in_frame { number_of result < 32 }
    {
        match self.pass() {
            Some(place) => place,
            None => self.follow(octet),
        }
    }

    /// Skips an octet of a speech slot and returns its place.
    ///
    /// In alignment, in slots other than 0 and 16, it does what `octet` does with any octet. Otherwise
    /// nothing changes, and the octet is for `octet`.
    #[inline]
    pub fn pass(&mut self) -> Option<Place>
        ensures placed { (history : List ℕ) (octet : ℕ) → HasHistory self.old history
            → IfSome result (λ p. p ≡ place (history ++ octet ∷ []) (length history)) }
        ensures stands { (history : List ℕ) (octet : ℕ) → HasHistory self.old history
            → IfSome result (λ _. HasHistory self.new (history ++ octet ∷ [])) }
        ensures none { IfNone result (self.new ≡ self.old) }
        ensures left { (history : List ℕ) (octet : ℕ) → HasHistory self.old history
            → IfNone result (number_of (place (history ++ octet ∷ []) (length history)) % 16 ≡ 0) }
        ensures in_frame { IfSome result (λ p. number_of p < 32) }
        ensures speech { IfSome result (λ p. number_of p % 16 ≢ 0) }
    {
        if let SyncState::Aligned { age, .. } = &mut self.phase {
            let now = *age;
            if now % HALF_FRAME != 0 {
                *age = next_age(now);
                return Some(slot_at(now));
            }
        }
        None
    }

    /// Skips the rest of a frame, or this many of its octets, and returns how many.
    ///
    /// It does what `octet` does with any octets. At slot 0 and without alignment it skips none.
    #[inline]
    pub fn pass_rest(&mut self, most: usize) -> usize
        ensures bound { result ≤ most }
        ensures stands { (history octets : List ℕ) → HasHistory self.old history → length octets ≡ result
            → HasHistory self.new (history ++ octets) }
        ensures placed { (history octets : List ℕ) → HasHistory self.old history → length octets ≡ result
            → (k : ℕ) → k < result → 0 < number_of (place (history ++ octets) (length history + k)) }
    {
        let SyncState::Aligned { age, .. } = &mut self.phase else {
            return 0;
        };
        let now = *age;
        let count = usize::from((FRAME - now % FRAME) % FRAME).min(most);
        *age = now.wrapping_add(count as u8) % TWO_FRAMES;
        count
    }

    // Does the work of `octet` for an octet that may be a signal.
    fn follow(&mut self, octet: u8) -> Place
        ensures placed { (history : List ℕ) → HasHistory self.old history
            → result ≡ place (history ++ octet ∷ []) (length history) }
        ensures stands { (history : List ℕ) → HasHistory self.old history
            → HasHistory self.new (history ++ octet ∷ []) }
        ensures in_frame { number_of result < 32 }
    {
        let before = self.phase;
        self.phase = phase_after(before, octet);
        place_between(before, self.phase)
    }

    /// Whether there is no frame alignment, as before the first octet.
    pub fn alarm(&self) -> bool
        ensures { (history : List ℕ) → HasHistory self.now history → result ≡ alarm_after history }
    {
        match self.phase {
            SyncState::Searching | SyncState::Candidate { .. } => true,
            SyncState::Aligned { .. } => false,
        }
    }
}

/// Whether the last seven bits are the frame alignment signal, as in a FAS octet (ITU-T G.704, 2.3.2).
#[inline]
#[tactic(auto, unfolding(crate::specs::Search::is_fas))]
pub fn is_fas(octet: u8) -> bool
    ensures { result ≡ is_fas octet }
{
    octet & SIGNAL_BITS == SIGNAL
}

/// Whether bit 2 is set, as in an NFAS octet (ITU-T G.704, 2.3.2).
#[inline]
#[tactic(auto, unfolding(crate::specs::Search::is_nfas))]
pub fn is_nfas(octet: u8) -> bool
    ensures { result ≡ is_nfas octet }
{
    octet & BIT_2 != 0
}

// The phase of the search after an octet.
fn phase_after(phase: SyncState, octet: u8) -> SyncState
    ensures { (before : Option ℕ) (octets : List ℕ) → Describes phase octets
        → Follows result before (octets ++ octet ∷ []) }
{
    match phase {
        SyncState::Searching => searched(octet),
        SyncState::Candidate { age } => after_candidate(age, octet),
        SyncState::Aligned {
            age,
            wrong_fas,
            wrong_nfas,
        } => after_aligned(age, wrong_fas, wrong_nfas, octet),
    }
}

// The phase after an octet read by a search.
fn searched(octet: u8) -> SyncState
    ensures { (before : Option ℕ) → Follows result before (octet ∷ []) }
{
    if is_fas(octet) {
        SyncState::Candidate { age: 1 }
    } else {
        SyncState::Searching
    }
}

// The phase after an octet `age` octets after a FAS octet.
fn after_candidate(age: u8, octet: u8) -> SyncState
    ensures { (before : Option ℕ) (octets : List ℕ) → IsCandidate age octets
        → Follows result before (octets ++ octet ∷ []) }
{
    if refutes(age, octet) {
        SyncState::Searching
    } else if age < TWO_FRAMES {
        SyncState::Candidate { age: age + 1 }
    } else {
        SyncState::Aligned {
            age: 1,
            wrong_fas: 0,
            wrong_nfas: 0,
        }
    }
}

// Whether an octet `age` octets after a FAS octet should confirm it, and is wrong.
fn refutes(age: u8, octet: u8) -> bool
    ensures { result ≡ is_refuted age octet }
{
    (age == FRAME && !is_nfas(octet)) || (age == TWO_FRAMES && !is_fas(octet))
}

// The phase after an octet in alignment.
fn after_aligned(age: u8, wrong_fas: u8, wrong_nfas: u8, octet: u8) -> SyncState
    ensures { (before : Option ℕ) (octets : List ℕ) → IsAlignedRun age wrong_fas wrong_nfas octets
        → Follows result before (octets ++ octet ∷ []) }
{
    let next = next_age(age);
    if age == 0 {
        match count_after(wrong_fas, is_fas(octet)) {
            Some(wrong_fas) => SyncState::Aligned {
                age: next,
                wrong_fas,
                wrong_nfas,
            },
            None => SyncState::Searching,
        }
    } else if age == FRAME {
        match count_after(wrong_nfas, is_nfas(octet)) {
            Some(wrong_nfas) => SyncState::Aligned {
                age: next,
                wrong_fas,
                wrong_nfas,
            },
            None => SyncState::Searching,
        }
    } else {
        SyncState::Aligned {
            age: next,
            wrong_fas,
            wrong_nfas,
        }
    }
}

// The age of the next octet, from the FAS, modulo two frames.
fn next_age(age: u8) -> u8
    ensures { age < 64 → result ≡ (age + 1) % 64 }
{
    age.wrapping_add(1) % TWO_FRAMES
}

// The place in its frame of an octet of this age.
fn slot_at(age: u8) -> Place
    ensures { result ≡ Slot (age % 32) (nat_lt age 32) }
{
    Place::Slot {
        number: age % FRAME,
        fas: age < FRAME,
    }
}

/// The count of consecutive errored octets of a kind after one more; `None` if alignment is lost by it (ITU-T
/// G.706, 4.1.1).
#[inline]
pub fn count_after(count: u8, right: bool) -> Option<u8>
    ensures { result ≡ count_after count right }
{
    if right {
        Some(0)
    } else if count < TOLERATED {
        Some(count + 1)
    } else {
        None
    }
}

// The place of the octet between two phases.
fn place_between(before: SyncState, after: SyncState) -> Place
    ensures placed { (earlier : Option ℕ) (octets : List ℕ) (octet : ℕ) → Describes before octets
        → Follows after earlier (octets ++ octet ∷ [])
        → result ≡ place_since frames earlier (octets ++ octet ∷ []) (length octets) }
    ensures in_frame { number_of result < 32 }
{
    match (before, after) {
        (SyncState::Aligned { age, .. }, SyncState::Aligned { .. }) => slot_at(age),
        _ => Place::Hunting,
    }
}
