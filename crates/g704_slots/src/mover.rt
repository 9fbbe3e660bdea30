//! Octets of slots 1 to 31 with slot 16 in its place (`SlotMover`).

ghost use Rattle.std.specs.Prelude.{◌≡◌, ◌+◌, ◌-◌, ◌%◌, ◌<◌, ◌≤◌, ℕ, List, [], ◌∷◌, ◌++◌, length, not, ◌||◌};
ghost use Rattle.std.specs.Prelude.{◌&&◌, nat_le};
ghost use Rattle.g704_cas.specs.Search.{is_mfas};
ghost use Rattle.g704_slots.specs.Search.{is_right, is_whole};
ghost use Rattle.g704_slots.specs.Shown.{delay, late_after, slots_reply};
ghost use Rattle.g704_slots.specs.Mover.{HasHistory, Stands, IsFollowed, FollowsAlignment, pass_of};

const FRAME: u8 = 31;

// The frames of a multiframe.
const FRAMES: u8 = 16;

// The octets of three multiframes: from the first signal to the fourth.
const THREE: u16 = 1488;

// The octets of four.
const FOUR: u16 = 1984;

// The octets between two signals.
const BETWEEN: u16 = 495;

// How many octets are kept.
const KEPT: u16 = 2048;

// The place of slot 16 in frames of slots 1 to 31.
const SLOT_16: u8 = 15;

// Ones: no signal in slot 16.
const ONES: u8 = 0xff;

// Bits 1 to 4 of an octet, which are 0 in the multiframe alignment signal.
const SIGNAL_BITS: u8 = 0xf0;

/// Whether slot 16 is found.
#[derive(Clone, Copy, Debug, PartialEq, Eq)]
pub(crate) enum SearchState {
    // It is searched for: how many octets came since, four multiframes at most, and behind how many of the
    // last ones no three multiframes have ended, up to those between two signals.
    Searching {
        seen: u16,
        alone: u16,
    },
    // It is followed: in which frame of a multiframe its last octet was, whether the last signal was in
    // error, whether slot 16 had nothing else since, and by how many octets others are delayed.
    Aligned {
        frame: u8,
        wrong: bool,
        zero: bool,
        late: u8,
    },
}

/// Returns octets of slots 1 to 31 with slot 16 in its place, one for each.
///
/// While slot 16 is not found, silence is returned. While it is followed, each octet is returned, late by as
/// many octets as slot 16 comes too early: 30 at most.
#[derive(Debug, Drop)]
pub struct SlotMover {
    phase: SearchState,
    // How many octets pass before the next one of slot 16. None do in a search.
    pass: u8,
    // The last octets, each at its number modulo how many are kept.
    memory: [u8; 2048],
    // How many octets came, modulo all numbers of this size.
    at: u16,
    // The place of the next octet in frames of slots 1 to 31.
    place: u8,
    // The octet of a slot in silence.
    idle: u8,
}

impl SlotMover {
    /// A mover before the first octet, which is at this place in frames of slots 1 to 31. In silence slots
    /// have this octet.
    pub fn new(idle: u8, first: u8) -> Self
        ensures stands { HasHistory result first [] }
        ensures idle { result.idle ≡ idle }
    {
        SlotMover {
            phase: SearchState::Searching { seen: 0, alone: 0 },
            pass: 0,
            memory: [0; 2048],
            at: 0,
            place: first % FRAME,
            idle,
        }
    }

    /// Takes the next octet and returns one for it.
    pub fn octet(&mut self, octet: u8) -> u8
        ensures reply { (first : ℕ) (history : List ℕ) → HasHistory self.old first history
            → result ≡ slots_reply self.old.idle first history octet }
        ensures stands { (first : ℕ) (history : List ℕ) → HasHistory self.old first history
            → HasHistory self.new first (history ++ octet ∷ []) }
        ensures idle { self.new.idle ≡ self.old.idle }
    {
        let place = self.place;
        self.take(octet);
        self.shown(place)
    }

    // Takes the next octet.
    fn take(&mut self, octet: u8)
        ensures stands { (first : ℕ) (history : List ℕ) → HasHistory self.old first history
            → HasHistory self.new first (history ++ octet ∷ []) }
        ensures idle { self.new.idle ≡ self.old.idle }
    {
        if self.pass > 0 {
            self.pass -= 1;
        } else {
            self.phase = self.phase_after(octet);
            self.pass = pass_of(self.phase);
        }
        self.memory[usize::from(self.at % KEPT)] = octet;
        self.at = self.at.wrapping_add(1);
        self.place = next_place(self.place);
    }

    /// By how many octets others are delayed; none while slot 16 is searched for.
    pub fn late(&self) -> Option<u8>
        ensures { (first : ℕ) (history : List ℕ) → HasHistory self.now first history
            → result ≡ late_after first history }
    {
        match self.phase {
            SearchState::Searching { .. } => None,
            SearchState::Aligned { late, .. } => Some(late),
        }
    }

    // The phase after the next octet, which is read.
    fn phase_after(&self, octet: u8) -> SearchState
        ensures { (first : ℕ) (history : List ℕ) → HasHistory self.now first history → self.now.pass ≡ 0
            → Stands result (pass_of result) first (history ++ octet ∷ []) }
    {
        match self.phase {
            SearchState::Searching { seen, alone } => self.searched(seen, alone, octet),
            SearchState::Aligned {
                frame,
                wrong,
                zero,
                late,
            } => after_aligned(frame, wrong, zero, late, octet),
        }
    }

    // The phase after an octet in a search.
    fn searched(&self, seen: u16, alone: u16, octet: u8) -> SearchState
        ensures { (first : ℕ) (history : List ℕ) → HasHistory self.now first history
            → self.now.phase ≡ SearchState.Searching seen alone
            → Stands result (pass_of result) first (history ++ octet ∷ []) }
    {
        if seen < THREE {
            return SearchState::Searching {
                seen: seen + 1,
                alone: 0,
            };
        }
        let whole = self.is_whole(octet);
        if whole && is_alone(seen, alone) {
            return SearchState::Aligned {
                frame: 0,
                wrong: false,
                zero: true,
                late: delay(self.place),
            };
        }
        SearchState::Searching {
            seen: seen.min(FOUR - 1) + 1,
            alone: if whole { 0 } else { alone.min(BETWEEN - 1) + 1 },
        }
    }

    // Whether three multiframes end in the slot of the next octet, which is the signal behind them.
    fn is_whole(&self, octet: u8) -> bool
        ensures { (first : ℕ) (history : List ℕ) → HasHistory self.now first history → 1488 ≤ length history
            → result ≡ is_whole (history ++ octet ∷ []) (length history - 1488) }
    {
        if !is_signal(octet) {
            return false;
        }
        let start = self.at.wrapping_add(KEPT - THREE);
        for frame in 0..48u16 {
            let position = start.wrapping_add(31 * frame) % KEPT;
            if !is_right(frame, self.memory[usize::from(position)]) {
                return false;
            }
        }
        true
    }

    // The octet for the place of the last one.
    fn shown(&self, place: u8) -> u8
        ensures { (first : ℕ) (before : List ℕ) (octet : ℕ) → HasHistory self.now first (before ++ octet ∷ [])
            → place ≡ (first + length before) % 31 → result ≡ slots_reply self.now.idle first before octet }
    {
        match self.phase {
            SearchState::Searching { .. } if place == SLOT_16 => ONES,
            SearchState::Searching { .. } => self.idle,
            SearchState::Aligned { late, .. } => {
                let position = self.at.wrapping_add(KEPT - 1 - u16::from(late)) % KEPT;
                self.memory[usize::from(position)]
            }
        }
    }
}

// Whether four multiframes came, and no three have ended in another slot since the first.
fn is_alone(seen: u16, alone: u16) -> bool
    ensures { result ≡ (nat_le 1984 seen && nat_le 495 alone) }
{
    seen >= FOUR && alone >= BETWEEN
}

// Whether bits 1 to 4 are the multiframe alignment signal.
#[tactic(auto, unfolding(g704_cas::specs::Search::is_mfas))]
fn is_signal(octet: u8) -> bool
    ensures { result ≡ is_mfas octet }
{
    octet & SIGNAL_BITS == 0
}

// Whether an octet is right for slot 16 of this frame.
fn is_right(frame: u16, octet: u8) -> bool
    ensures { result ≡ is_right frame octet }
{
    if frame % 16 == 0 {
        is_signal(octet)
    } else {
        !is_signal(octet)
    }
}

// Whether a signal is in error: this octet, or slot 16 had nothing else since the last one.
fn is_errored(zero: bool, octet: u8) -> bool
    ensures { result ≡ (not (is_mfas octet) || zero) }
{
    zero || !is_signal(octet)
}

// By how many octets others are delayed, if one of slot 16 is at this place.
fn delay(place: u8) -> u8
    ensures { result ≡ delay place }
{
    (46 - place % FRAME) % FRAME
}

// The place behind this one.
fn next_place(place: u8) -> u8
    ensures { place < 31 → result ≡ (place + 1) % 31 }
{
    if place < FRAME - 1 { place + 1 } else { 0 }
}

// How many octets pass behind one that is read.
fn pass_of(phase: SearchState) -> u8
    ensures { result ≡ pass_of phase }
{
    match phase {
        SearchState::Searching { .. } => 0,
        SearchState::Aligned { .. } => FRAME - 1,
    }
}

// The phase after the next octet of slot 16 while it is followed.
fn after_aligned(frame: u8, wrong: bool, zero: bool, late: u8, octet: u8) -> SearchState
    ensures { (octets : List ℕ) → IsFollowed frame 0 wrong zero octets
        → FollowsAlignment result (pass_of result) late octets octet }
{
    if frame < FRAMES - 1 {
        return SearchState::Aligned {
            frame: frame + 1,
            wrong,
            zero: zero && is_signal(octet),
            late,
        };
    }
    let errored = is_errored(zero, octet);
    if wrong && errored {
        return SearchState::Searching { seen: 0, alone: 0 };
    }
    SearchState::Aligned {
        frame: 0,
        wrong: errored,
        zero: true,
        late,
    }
}
