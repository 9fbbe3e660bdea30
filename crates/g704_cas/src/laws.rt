//! Laws of multiframe alignment: where a search ends, and that places depend on frame 0 alone.

ghost use Rattle.g704_framing.specs.Laws.{IsFraming};
ghost use Rattle.g704_cas.specs.Search.{SearchIsLeast};
ghost use Rattle.g704_cas.specs.Loss.{multiframe_alignment};
ghost use Rattle.g704_framing.specs.Places.{PlacesAreSettled, PlacesAreAlike, OtherPlacesAreNotRead};
ghost use Rattle.g704_cas.specs.Placing.{multiframes};

/// A search finds the least position with a right octet behind one that is not 0.
#[tactic(auto, using(crate::proofs::LeastSearch::search_is_least))]
pub fn search_is_least()
    ensures { SearchIsLeast }
{}

/// Multiframe alignment is a framing, so the laws of g704_framing hold.
///
/// Among them: the alignments of a list are the results of alternating searches and losses.
#[tactic(auto, using(crate::proofs::Searches::multiframe_is_framing))]
pub fn multiframe_alignment_is_framing()
    ensures { IsFraming multiframe_alignment }
{}

/// Later octets change no place and no earlier alarm.
pub fn places_are_settled()
    ensures { PlacesAreSettled multiframes }
{}

/// Places depend on frame 0 alone.
///
/// Lists have the same alignments, places and alarms if their searches end alike and they are right or wrong
/// alike in frame 0 of the first one's alignments, finds and losses included.
#[tactic(auto, using(crate::proofs::Callers::place_alike))]
pub fn places_are_alike()
    ensures { PlacesAreAlike multiframes }
{}

/// No search and no loss reads an octet outside frame 0.
#[tactic(auto, using(crate::proofs::Callers::alike_kept))]
pub fn other_places_are_not_read()
    ensures { OtherPlacesAreNotRead multiframes }
{}
