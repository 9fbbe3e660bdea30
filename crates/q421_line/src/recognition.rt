//! When a received pair of bits a and b is recognised: after ten equal ones (`Recognition`).

ghost use Rattle.std.specs.Prelude.{◌≡◌, ℕ, ◌↔◌, List, [], ◌∷◌, ◌++◌, min, IsTrue};
ghost use Rattle.q421_line.specs.Recognition.{run_of};
ghost use Rattle.q421_line.specs.Signalling.{with_heard};
ghost use Rattle.q421_line.specs.Line.{HasHeard};

mod saving;

use crate::pairs::Pair;
use g704_cas::Nibble;

// Equal known pairs after which a pair is recognised: at one every 2 ms, 20 ms (our choice).
const RECOGNISED_AFTER: u8 = 10;

#[derive(Clone, Copy, Debug, PartialEq, Eq)]
pub(crate) struct Recognition {
    // The last known pair.
    latest: Option<Pair>,
    // The number of equal pairs at the end, at most `RECOGNISED_AFTER`.
    run: u8,
    recognised: Option<Pair>,
}

impl Recognition {
    pub(crate) fn new() -> Self
        ensures { HasHeard result [] }
    {
        Recognition {
            latest: None,
            run: 0,
            recognised: None,
        }
    }

    // Takes the received nibble, if any.
    //
    // Without one the known pairs stay as they are.
    pub(crate) fn receive(&mut self, heard: Option<Nibble>)
        ensures { (pairs : List ℕ) → HasHeard self.old pairs → HasHeard self.new (with_heard pairs heard) }
    {
        match heard {
            Some(nibble) => self.hear_pair(Pair::of(nibble)),
            None => {}
        }
    }

    // Takes one more known pair, and recognises it after ten equal.
    fn hear_pair(&mut self, pair: Pair)
        ensures { (pairs : List ℕ) → HasHeard self.old pairs → HasHeard self.new (pairs ++ pair ∷ []) }
    {
        self.run = self.run_with(pair);
        self.latest = Some(pair);
        if self.run == RECOGNISED_AFTER {
            self.recognised = Some(pair);
        }
    }

    // The number of equal pairs at the end, this one included, at most `RECOGNISED_AFTER`.
    fn run_with(&self, pair: Pair) -> u8
        ensures { (pairs : List ℕ) → HasHeard self.now pairs
            → result ≡ min 10 (run_of pair (pairs ++ pair ∷ [])) }
    {
        if !self.ended_in(pair) {
            1
        } else if self.run >= RECOGNISED_AFTER {
            RECOGNISED_AFTER
        } else {
            self.run + 1
        }
    }

    fn ended_in(&self, pair: Pair) -> bool
        ensures { IsTrue result ↔ (self.now.latest ≡ Some pair) }
    {
        match self.latest {
            Some(latest) => latest.get() == pair.get(),
            None => false,
        }
    }

    pub(crate) fn recognised(&self) -> Option<Pair>
        ensures { result ≡ self.now.recognised }
    {
        self.recognised
    }
}
