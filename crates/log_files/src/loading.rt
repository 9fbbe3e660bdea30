//! Which of two pairs of files is loaded, and what it has (`newest`).

ghost use Rattle.std.specs.Prelude.{◌≡◌, IfSome, IfNone, IfOk, OnErr, MatchOption};
ghost use Rattle.log_files.specs.Pairs.{Has, HasNothingWhole, HaveSameTurn, IsNewest, Kept};
ghost use Rattle.log_files.specs.Loading.{IsCounted, IsLoadedOf, Loads, NamesNewer, contents_of, kept_of};

use crate::area::area_in;
use thiserror::Error;

/// What the two files of a pair hold.
#[derive(Clone, Copy, Debug, PartialEq, Eq)]
pub struct PairContents<'a> {
    /// The state's file.
    pub state: &'a [u8],
    /// That of the records.
    pub records: &'a [u8],
}

/// A state, and the octets of records that were appended behind it, of a turn.
#[derive(Clone, Copy, Debug, PartialEq, Eq)]
pub struct KeptContents<'a> {
    /// The turn.
    pub turn: u64,
    /// The octets of the state.
    pub state: &'a [u8],
    /// Those of the records.
    pub records: &'a [u8],
}

/// What is loaded, and from which of two pairs.
#[derive(Clone, Copy, Debug, PartialEq, Eq)]
pub enum Loaded<'a> {
    /// From the first one.
    First(KeptContents<'a>),
    /// From the second one.
    Second(KeptContents<'a>),
}

impl<'a> Loaded<'a> {
    /// What is loaded.
    pub fn kept(&self) -> KeptContents<'a>
        ensures { IsLoadedOf self.now result }
    {
        match self {
            Loaded::First(kept) | Loaded::Second(kept) => *kept,
        }
    }
}

/// Two pairs have something of the same turn, so it is not known which is newer.
#[derive(Clone, Copy, Debug, PartialEq, Eq, Error)]
#[error("both pairs are of the same turn")]
pub struct SameTurn;

// What a pair of files has, if anything is whole.
fn kept_in<'a>(pair: &PairContents<'a>) -> Option<KeptContents<'a>>
    ensures some { IfSome result (λ kept. Has (contents_of pair.now) (kept_of kept)) }
    ensures none { IfNone result (HasNothingWhole (contents_of pair.now)) }
{
    let state = area_in(pair.state)?;
    let records = area_in(pair.records)?;
    if state.turn != records.turn {
        return None;
    }
    Some(KeptContents {
        turn: state.turn,
        state: state.octets,
        records: records.octets,
    })
}

/// What is loaded of two pairs of files: that of the later turn. None if neither has anything whole.
pub fn newest<'a>(
    first: &PairContents<'a>,
    second: &PairContents<'a>,
) -> Result<Option<Loaded<'a>>, SameTurn>
    ensures ok { IfOk result (λ found. MatchOption found
        (HasNothingWhole (contents_of first.now) × HasNothingWhole (contents_of second.now))
        (NamesNewer (contents_of first.now) (contents_of second.now))) }
    ensures counted { IfOk result (λ found. IfSome found IsCounted) }
    ensures err { OnErr result (HaveSameTurn (contents_of first.now) (contents_of second.now)) }
    // what the files of a log leave is loaded
    ensures left { (kept : Kept) → IsNewest (contents_of first.now) (contents_of second.now) kept
        → Loads result kept }
{
    match (kept_in(first), kept_in(second)) {
        (None, None) => Ok(None),
        (Some(kept), None) => Ok(Some(Loaded::First(kept))),
        (None, Some(kept)) => Ok(Some(Loaded::Second(kept))),
        (Some(kept), Some(other)) if kept.turn > other.turn => Ok(Some(Loaded::First(kept))),
        (Some(kept), Some(other)) if kept.turn < other.turn => Ok(Some(Loaded::Second(other))),
        (Some(_), Some(_)) => Err(SameTurn),
    }
}
