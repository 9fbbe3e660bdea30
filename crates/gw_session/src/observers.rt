//! What a session shows what it does (`Observers`).

ghost use Rattle.std.specs.Prelude.{◌≡◌};

use crate::tape::{NoTape, Tape};
use crate::watch::{NoWatch, Watch};

/// The tape and the watch of a session.
#[derive(Drop)]
pub struct Observers<T: Tape, W: Watch> {
    /// What its events are recorded on.
    pub tape: T,
    /// What is shown each datagram and each record.
    pub watch: W,
}

impl<W: Watch> Observers<NoTape, W> {
    /// Of a session that records nothing, and shows a watch what it does.
    pub fn watched(watch: W) -> Observers<NoTape, W>
        ensures { result.watch ≡ watch }
    {
        Observers {
            tape: NoTape,
            watch,
        }
    }
}

impl Observers<NoTape, NoWatch> {
    /// Of a session that shows nothing.
    pub fn none() -> Observers<NoTape, NoWatch> {
        Observers {
            tape: NoTape,
            watch: NoWatch,
        }
    }
}
