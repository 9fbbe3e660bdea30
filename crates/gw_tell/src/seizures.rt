//! When a line counts as seized, and how often each was.

ghost use Rattle.std.specs.Prelude.{◌≡◌};
ghost use Rattle.gw_tell.specs.Seizures.{is_seizure, AreCounted};

use gw_circuit::Status;
use q421_line::State;

// Whether a line was seized: it was idle, and is seized or acknowledged.
fn is_seizure(was: State, is: State) -> bool
    ensures { result ≡ is_seizure was is }
{
    was == State::Idle && (is == State::Seized || is == State::Acked)
}

/// Counts the lines of circuits 1 to 30 that were seized since they were as they were.
pub fn count_seizures(counts: &mut [u64; 30], was: &[Status; 30], is: &[Status; 30])
    ensures { AreCounted counts.old was.now is.now counts.new }
{
    for i in 0..30usize {
        if is_seizure(was[i].state, is[i].state) {
            counts[i] = counts[i].saturating_add(1);
        }
    }
}
