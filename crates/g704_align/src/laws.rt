//! Laws of frame alignment: which signal a search finds, and that places depend on slot 0 alone.

ghost use Rattle.g704_framing.specs.Laws.{IsFraming};
ghost use Rattle.g704_align.specs.Search.{SearchMeetsLeast};
ghost use Rattle.g704_align.specs.Loss.{frame_alignment};
ghost use Rattle.g704_framing.specs.Places.{PlacesAreSettled, PlacesAreAlike, OtherPlacesAreNotRead};
ghost use Rattle.g704_align.specs.Placing.{frames};

/// A search finds the least position with a FAS octet that is confirmed.
///
/// Positions are those of the whole stream. The octets 32 and 64 octets on confirm it; otherwise the search
/// goes on past the first of the two that is wrong.
#[tactic(auto, using(crate::proofs::FirstFas::search_meets_least))]
pub fn search_meets_least()
    ensures { SearchMeetsLeast }
{}

/// Frame alignment is a framing, so the laws of g704_framing hold.
///
/// Among them: the alignments of a stream are the results of alternating searches and losses.
#[tactic(auto, using(crate::proofs::Searches::frame_is_framing))]
pub fn frame_alignment_is_framing()
    ensures { IsFraming frame_alignment }
{}

/// Later octets change no place and no earlier alarm.
pub fn places_are_settled()
    ensures { PlacesAreSettled frames }
{}

/// Places depend on slot 0 alone.
///
/// Streams have the same alignments, places and alarms if their searches end alike and they are right or
/// wrong alike in slot 0 of the first one's alignments, losses included.
#[tactic(auto, using(crate::proofs::Callers::place_alike))]
pub fn places_are_alike()
    ensures { PlacesAreAlike frames }
{}

/// No search and no loss reads an octet outside slot 0.
#[tactic(auto, using(crate::proofs::Callers::alike_kept))]
pub fn other_places_are_not_read()
    ensures { OtherPlacesAreNotRead frames }
{}
