//! What a device is sent that has slots 1 to 31 alone (`SlotDropper`).

ghost use Rattle.std.specs.Prelude.{◌≡◌, ◌<◌, ◌≤◌, ◌+◌, ◌*◌, ◌%◌, ◌++◌, ◌∷◌, ℕ, List, [], length, true};
ghost use Rattle.std.specs.Prelude.{is_some, MatchOption};
ghost use Rattle.trunk_filters.specs.Dropping.{HasFramed, begun_count};

use crate::begun::BegunFrame;
use crate::pieces::PieceFilter;
use arrayvec::ArrayVec;
use gw_records::AtStart;

const FRAME: u8 = 32;

// The octets of slots 1 to 30.
const LAST: usize = 30;

/// Returns slots 1 to 31 of whole frames, from the first one that begins, if it is used; otherwise octets
/// pass as they came. So a program that dies leaves its device at the end of a frame, and the next one
/// begins with one.
#[derive(Drop)]
pub struct SlotDropper {
    frame: Option<BegunFrame>,
    // The place of the first octet.
    place: AtStart<u16>,
}

impl SlotDropper {
    /// A dropper for octets from this place in a multiframe on, if it is used.
    pub fn new(is_on: bool, place: u16) -> SlotDropper
        requires { place < 512 }
        ensures on { is_some result.frame ≡ is_on }
        ensures place { result.place.value ≡ place }
        ensures begins { ⟦<SlotDropper as PieceFilter>⟧.has_returned result [] [] }
    {
        let frame = if is_on {
            Some(BegunFrame {
                before: (FRAME - (place % 32) as u8) % FRAME,
                octets: ArrayVec::new(),
                zero: false,
            })
        } else {
            None
        };
        SlotDropper {
            frame,
            place: AtStart::of(&place),
        }
    }
}

impl BegunFrame {
    // Takes the next octet, and puts the frame into `returned` if it is whole.
    fn octet(&mut self, octet: u8, returned: &mut ArrayVec<u8, 512>)
        requires room { begun_count self.old ≡ 31 → length returned.old.items ≤ 481 }
        ensures framed { (place : ℕ) (taken before : List ℕ)
            → HasFramed self.old place taken (before ++ returned.old.items)
            → HasFramed self.new place (taken ++ octet ∷ []) (before ++ returned.new.items) }
        ensures counted { 32 * length returned.new.items + 31 * begun_count self.new
            ≤ 32 * length returned.old.items + 31 * (begun_count self.old + 1) }
        ensures whole { length returned.new.items % 31 ≡ length returned.old.items % 31 }
    {
        if self.before > 0 {
            self.before -= 1;
            return;
        }
        if !self.zero {
            self.zero = true;
            return;
        }
        if self.octets.len() < LAST {
            let _ = self.octets.try_push(octet);
            return;
        }
        let _ = returned.try_extend_from_slice(self.octets.as_slice());
        let _ = returned.try_push(octet);
        self.octets.clear();
        self.zero = false;
    }

    // Takes the next octets, and puts the frames into `returned` that are whole.
    fn pass_all(&mut self, octets: &[u8], returned: &mut ArrayVec<u8, 512>)
        requires few { length octets.now ≤ 512 }
        requires none { returned.old.items ≡ [] }
        ensures framed { (place : ℕ) (taken before : List ℕ) → HasFramed self.old place taken before
            → HasFramed self.new place (taken ++ octets.now) (before ++ returned.new.items) }
        ensures whole { length returned.new.items % 31 ≡ 0 }
    {
        for octet in octets {
            self.octet(*octet, returned);
        }
    }
}

impl PieceFilter for SlotDropper {
    ghost has_returned = { λ d taken returned. MatchOption d.frame (returned ≡ taken)
        (λ f. HasFramed f d.place.value taken returned) };

    ghost may_return_none = { λ d. is_some d.frame };

    fn pass(&mut self, octets: &[u8], returned: &mut ArrayVec<u8, 512>) {
        match &mut self.frame {
            Some(frame) => frame.pass_all(octets, returned),
            None => {
                let _ = returned.try_extend_from_slice(octets);
            }
        }
    }

    fn is_off(&self) -> bool {
        self.frame.is_none()
    }
}
