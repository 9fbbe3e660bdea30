//! Laws of alignments, by their definitions alone, for each kind of alignment that satisfies `IsFraming`.

ghost use Rattle.g704_framing.specs.Laws.{AlignmentsTakeTurns, AgesAreSettled, AlignmentsAreAlike};
ghost use Rattle.g704_framing.specs.Laws.{OthersAreNotRead};

/// Alignments are the results of alternating searches and losses.
///
/// The first search is from the first octet, each further one from the octet after a loss.
#[tactic(auto, using(crate::proofs::Turns::alignments_turns))]
pub fn alignments_take_turns()
    ensures { AlignmentsTakeTurns }
{}

/// Later octets change no octet's age in its alignment.
#[tactic(auto, using(crate::proofs::Settles::ages_are_settled))]
pub fn ages_are_settled()
    ensures { AgesAreSettled }
{}

/// Streams have the same alignments if their searches end alike and they lose each alignment of the first one
/// alike.
#[tactic(auto, using(crate::proofs::Agrees::alignments_are_alike))]
pub fn alignments_are_alike()
    ensures { AlignmentsAreAlike }
{}

/// Only octets at whole periods from an alignment's first one can change an alignment.
pub fn others_are_not_read()
    ensures { OthersAreNotRead }
{}
