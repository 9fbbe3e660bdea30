//! Laws of line signals: ten equal pairs, the release of seizures, refusals that change nothing.

ghost use Rattle.q421_line.specs.Laws.{PairsAreRecognisedByTen, SeizuresAreReleased};
ghost use Rattle.q421_line.specs.Laws.{SeizuresAreReleasedByTheHundredth, RefusedCommandsChangeNothing};
ghost use Rattle.q421_line.specs.Laws.{WaitsChangeNothingElse, SentPairsFit, IncomingIsNeverSeized};

/// A pair is recognised after ten equal known pairs, until another is.
///
/// At first none is recognised.
#[tactic(auto, using(crate::proofs::Callers::recognised_by_ten))]
pub fn pairs_are_recognised_by_ten()
    ensures { PairsAreRecognisedByTen }
{}

/// A seizure lasts fewer signals than the wait, whatever is received.
///
/// It lasts fewer than a hundred if no wait was given.
pub fn seizures_are_released()
    ensures by_the_wait { SeizuresAreReleased }
    ensures by_the_hundredth { SeizuresAreReleasedByTheHundredth }
{}

/// A refused command changes nothing of a line's signalling.
#[tactic(auto, using(crate::proofs::Callers::signalling_refused))]
pub fn refusals_change_nothing()
    ensures { RefusedCommandsChangeNothing }
{}

/// A wait changes only the release of a seizure.
#[tactic(auto, using(crate::proofs::Callers::signalling_waiting))]
pub fn waits_change_nothing_else()
    ensures { WaitsChangeNothingElse }
{}

/// A line sends four bits in every state.
#[tactic(auto, using(crate::proofs::Callers::sent_nibble_fits))]
pub fn sent_nibbles_fit()
    ensures { SentPairsFit }
{}

/// No signals and commands lead an incoming line to `Seized` or `Releasing`.
#[tactic(auto, using(crate::proofs::Callers::incoming_never_seized))]
pub fn incoming_is_never_seized()
    ensures { IncomingIsNeverSeized }
{}
