//! The octets of a frame that has begun (`BegunFrame`).

ghost use Rattle.std.specs.Prelude.{◌≡◌, ◌<◌, [], length, false};

use arrayvec::ArrayVec;

// Slots 1 to 31 of the frame that has begun.
#[derive(Drop)]
pub(crate) struct BegunFrame {
    // How many octets come before the next frame begins, if none has begun.
    pub(crate) before: u8,
    // The octets of its slots so far. Slot 0 has come if `zero` holds.
    pub(crate) octets: ArrayVec<u8, 31>,
    pub(crate) zero: bool,
    ghost none: { zero ≡ false → octets.items ≡ [] },
    ghost few: { length octets.items < 31 },
}
