//! Laws of the SAToP playout: accepted packets are played once, in any order of arrival.

ghost use Rattle.satop_playout.specs.Laws.{NothingIsGiven, BeginningsGiveNothing, ArrivalsGiveNothing};
ghost use Rattle.satop_playout.specs.Laws.{PlaysGiveTheirOctets, RefusalsChangeNothing, AcceptedIsPlayed};
ghost use Rattle.satop_playout.specs.Laws.{NothingIsAcceptedTwice, OrderDoesNotMatter};

/// The octets given grow with each play by its octets, and with no other call.
pub fn plays_give_octets()
    ensures none { NothingIsGiven }
    ensures begins { BeginningsGiveNothing }
    ensures arrives { ArrivalsGiveNothing }
    ensures plays { PlaysGiveTheirOctets }
{}

/// A refused packet changes nothing.
#[tactic(auto, using(crate::proofs::Turns::refusals_change_nothing))]
pub fn refusals_change_nothing()
    ensures { RefusalsChangeNothing }
{}

/// An accepted packet is played in its turn, as it was sent, unless another stream begins before.
pub fn accepted_packets_are_played()
    ensures { AcceptedIsPlayed }
{}

/// No number of a stream is accepted twice within 2^15 plays; so no packet is played twice.
#[tactic(auto, using(crate::proofs::Turns::nothing_is_accepted_twice))]
pub fn nothing_is_accepted_twice()
    ensures { NothingIsAcceptedTwice }
{}

/// The order of arrival does not matter.
///
/// If all packets of a stream are accepted in both of two orders, as many plays, up to 2^15, give the same
/// octets in both.
#[tactic(auto, using(crate::proofs::Orders::order_does_not_matter))]
pub fn order_does_not_matter()
    ensures { OrderDoesNotMatter }
{}
