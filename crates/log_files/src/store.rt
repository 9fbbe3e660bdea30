//! What the log is written to: octets of a fixed number (`Store`).

use thiserror::Error;

/// A write failed.
#[derive(Clone, Copy, Debug, PartialEq, Eq, Error)]
#[error("a write failed")]
pub struct StoreFault;

/// Octets of a fixed number, which are written over.
///
/// A program that is killed leaves what a store leaves of which each write fails from then on.
pub trait Store {
    ghost use Rattle.std.specs.Prelude.{◌≡◌, ◌+◌, ◌≤◌, ℕ, Bool, List, Option, length};
    ghost use Rattle.log_files.specs.Stores.{TellsFault, WhereKnown, WritesAt, WritesHead};

    /// What it holds, if this is known.
    ghost holds: { Self → Option (List ℕ) };

    /// How many octets it holds.
    ghost room: { Self → ℕ };

    /// Whether a write failed.
    ghost failed: { Self → Bool };

    /// How many octets it holds.
    fn room(&self) -> u64
        ensures { result ≡ room self.now };

    /// Writes octets in the place of those from `at` on. Where it fails the first of them may be written.
    fn write_at(&mut self, at: u64, octets: &[u8]) -> Result<(), StoreFault>
        requires { at + length octets.now ≤ room self.old }
        ensures writes { WhereKnown (holds self.old) (holds self.new) (WritesAt at octets.now result) }
        ensures fault { TellsFault (failed self.old) (failed self.new) result }
        ensures room { room self.new ≡ room self.old };

    /// Writes a head in the place of the first octets. Where it fails all of it is written, or nothing.
    fn write_head(&mut self, head: &[u8; 24]) -> Result<(), StoreFault>
        requires { 24 ≤ room self.old }
        ensures writes { WhereKnown (holds self.old) (holds self.new) (WritesHead head.now result) }
        ensures fault { TellsFault (failed self.old) (failed self.new) result }
        ensures room { room self.new ≡ room self.old };
}
