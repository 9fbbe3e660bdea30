//! When frame alignment is found and lost in bits at any offset: a window ends at each bit.

ghost use Rattle.std.specs.Prelude.{◌≡◌, ◌+◌, ◌%◌, ◌<◌, ◌≤◌, ◌&&◌, ℕ, nat_le, List, Option, [], ◌∷◌, ◌++◌};
ghost use Rattle.std.specs.Prelude.{length, slice_index, IsTrue, false};
ghost use Rattle.g704_bits.specs.Aligner.{HasHistory, IsAlignedRun, FollowsAlignment, confirms, next_seen};

use g704_align::{count_after, is_fas, is_nfas};

const FRAME: u16 = 256;

const TWO_FRAMES: u16 = 512;

// The bits of an octet.
const BITS: u16 = 8;

// The greatest count of windows seen; the count after it is that of two frames, so its remainder is right.
const LAST_SEEN: u16 = 1023;

// The last bit of an octet, 0 to 7, of windows that are the octets received.
const UNMOVED: u8 = 7;

// The state of the search.
#[derive(Clone, Copy, Debug, PartialEq, Eq)]
pub(crate) enum SyncState {
    // No alignment for this many windows, counted up to two frames and from there modulo two frames.
    Hunting {
        seen: u16,
    },
    // Frames are aligned.
    //
    // The age counts the windows from the first signal, modulo two frames; the counts are those of
    // consecutive errored signals.
    Aligned {
        age: u16,
        wrong_fas: u8,
        wrong_nfas: u8,
    },
}

// Finds frame alignment in a stream of bits.
//
// It takes the window that ends at each bit.
#[derive(Debug, Drop)]
pub(crate) struct Aligner {
    phase: SyncState,
    // The last bit of windows in the last alignment.
    offset: u8,
    // Without alignment: the last windows of two frames, each at its number modulo two frames.
    memory: [u8; 512],
}

impl Aligner {
    // An aligner at the start of a stream.
    pub(crate) fn new() -> Self
        ensures { HasHistory result [] }
    {
        Aligner {
            phase: SyncState::Hunting { seen: 0 },
            offset: UNMOVED,
            memory: [0; 512],
        }
    }

    // The last bit, 0 to 7, of the last alignment's windows.
    pub(crate) fn offset(&self) -> u8
        ensures { result ≡ self.now.offset }
    {
        self.offset
    }

    // Takes the window that ends at the next bit, which is this one of its octet.
    pub(crate) fn window(&mut self, window: u8, bit: u8)
        ensures stands { (history : List ℕ) → HasHistory self.old history → bit ≡ length history % 8
            → HasHistory self.new (history ++ window ∷ []) }
    {
        match self.phase {
            SyncState::Hunting { seen } => self.hunt(seen, window, bit),
            SyncState::Aligned {
                age,
                wrong_fas,
                wrong_nfas,
            } => self.phase = after_aligned(age, wrong_fas, wrong_nfas, window),
        }
    }

    // Takes the eight windows of an octet at once if none of them is one of slot 0, and returns whether it did.
    pub(crate) fn skip(&mut self) -> bool
        ensures skipped { IsTrue result → (history windows : List ℕ) → HasHistory self.old history
            → length windows ≡ 8 → HasHistory self.new (history ++ windows) }
        ensures kept { result ≡ false → self.new ≡ self.old }
    {
        let SyncState::Aligned {
            age,
            wrong_fas,
            wrong_nfas,
        } = self.phase
        else {
            return false;
        };
        if age % FRAME == 0 || age % FRAME > FRAME - BITS {
            return false;
        }
        self.phase = SyncState::Aligned {
            age: age.wrapping_add(BITS) % TWO_FRAMES,
            wrong_fas,
            wrong_nfas,
        };
        true
    }

    // Takes a window without alignment.
    fn hunt(&mut self, seen: u16, window: u8, bit: u8)
        requires { self.old.phase ≡ SyncState.Hunting seen }
        ensures stands { (history : List ℕ) → HasHistory self.old history → bit ≡ length history % 8
            → HasHistory self.new (history ++ window ∷ []) }
    {
        if self.confirms(seen, window) {
            self.offset = bit;
            self.phase = SyncState::Aligned {
                age: 1,
                wrong_fas: 0,
                wrong_nfas: 0,
            };
        } else {
            self.memory[usize::from(seen % TWO_FRAMES)] = window;
            self.phase = SyncState::Hunting {
                seen: next_seen(seen),
            };
        }
    }

    // Whether a window confirms the one two frames before it, as does the one a frame before it.
    fn confirms(&self, seen: u16, window: u8) -> bool
        ensures { result ≡ confirms seen self.now.memory window }
    {
        seen >= TWO_FRAMES
            && is_fas(self.memory[usize::from(seen % TWO_FRAMES)])
            && is_nfas(self.memory[usize::from(seen.wrapping_add(FRAME) % TWO_FRAMES)])
            && is_fas(window)
    }
}

// The count of windows seen, after one more.
fn next_seen(seen: u16) -> u16
    ensures { result ≡ next_seen seen }
{
    if seen < LAST_SEEN {
        seen + 1
    } else {
        TWO_FRAMES
    }
}

// The phase after a window in alignment.
fn after_aligned(age: u16, wrong_fas: u8, wrong_nfas: u8, window: u8) -> SyncState
    ensures { (windows : List ℕ) → IsAlignedRun age wrong_fas wrong_nfas windows
        → FollowsAlignment result windows window }
{
    let next = next_age(age);
    if age == 0 {
        match count_after(wrong_fas, is_fas(window)) {
            Some(wrong_fas) => SyncState::Aligned {
                age: next,
                wrong_fas,
                wrong_nfas,
            },
            None => SyncState::Hunting { seen: 0 },
        }
    } else if age == FRAME {
        match count_after(wrong_nfas, is_nfas(window)) {
            Some(wrong_nfas) => SyncState::Aligned {
                age: next,
                wrong_fas,
                wrong_nfas,
            },
            None => SyncState::Hunting { seen: 0 },
        }
    } else {
        SyncState::Aligned {
            age: next,
            wrong_fas,
            wrong_nfas,
        }
    }
}

// The age of the next window, modulo two frames.
fn next_age(age: u16) -> u16
    ensures { age < 512 → result ≡ (age + 1) % 512 }
{
    age.wrapping_add(1) % TWO_FRAMES
}
