//! A state's file and that of the records behind it (`Pair`).

ghost use Rattle.std.specs.Prelude.{◌≡◌, ◌||◌, ◌≤◌, ◌+◌, ◌<◌, ◌^◌, OnOk, OnErr, length};
ghost use Rattle.log_files.specs.Pairs.{Has, HasMore, MayHaveMore, MayLeave, SameRoom, begun, both};
ghost use Rattle.log_files.specs.Stores.{TellsFault, WhereKnown};

use crate::head::{HEAD_LEN, Head, head_of, head_over};
use crate::store::{Store, StoreFault};
use std::marker::Model;

/// The store of a state, and that of the records behind it.
#[derive(Drop)]
pub struct Pair<S: Store> {
    pub(crate) state: S,
    pub(crate) records: S,
}

impl<S: Store> Model for Pair<S> {
    ghost use Rattle.std.specs.Prelude.{◌≤◌, ◌||◌};
    ghost use Rattle.log_files.specs.Pairs.{PairState, both};

    ghost Value = { PairState };

    ghost view = { λ pair. record {
      contents = both (S.holds pair.state) (S.holds pair.records);
      failed = S.failed pair.state || S.failed pair.records;
      state_room = S.room pair.state;
      records_room = S.room pair.records;
    } };

    ghost invariant = { λ pair. (24 ≤ S.room pair.state) × (24 ≤ S.room pair.records) };
}

impl<S: Store> Pair<S> {
    /// A pair of these stores.
    pub fn new(state: S, records: S) -> Pair<S>
        requires state { 24 ≤ S.room state }
        requires records { 24 ≤ S.room records }
        ensures { result ≡ record {
          contents = both (S.holds state) (S.holds records);
          failed = S.failed state || S.failed records;
          state_room = S.room state;
          records_room = S.room records;
        } }
    {
        Pair { state, records }
    }

    // Writes a state of a turn, with no record behind it. First the pair has nothing, and it has the state
    // when the head of this is written.
    pub(crate) fn write(&mut self, turn: u64, state: &[u8]) -> Result<(), StoreFault>
        requires room { 24 + length state.now ≤ self.old.state_room }
        requires counted { length state.now < 2 ^ 32 }
        ensures ok { OnOk result (WhereKnown self.old.contents self.new.contents (λ _ pair.
            Has pair (begun turn state.now))) }
        ensures err { OnErr result (WhereKnown self.old.contents self.new.contents
            (MayLeave (begun turn state.now))) }
        ensures fault { TellsFault self.old.failed self.new.failed result }
        ensures room { SameRoom self.old self.new }
    {
        self.state.write_head(&[0; HEAD_LEN])?;
        self.state.write_at(HEAD_LEN as u64, state)?;
        self.records.write_head(&head_over(turn, &[]))?;
        self.state.write_head(&head_over(turn, state))
    }

    // Writes octets of records behind `len` others of this turn, and then the head of all of them, whose
    // checksum is `sum`.
    pub(crate) fn append(
        &mut self,
        turn: u64,
        len: u32,
        octets: &[u8],
        sum: u32,
    ) -> Result<(), StoreFault>
        requires room { 24 + len + length octets.now ≤ self.old.records_room }
        requires counted { len + length octets.now < 2 ^ 32 }
        ensures ok { OnOk result (WhereKnown self.old.contents self.new.contents
            (HasMore turn len octets.now sum)) }
        ensures err { OnErr result (WhereKnown self.old.contents self.new.contents
            (MayHaveMore turn len octets.now sum)) }
        ensures state { WhereKnown self.old.contents self.new.contents
            (λ pair pair'. pair'.state ≡ pair.state) }
        ensures fault { TellsFault self.old.failed self.new.failed result }
        ensures room { SameRoom self.old self.new }
    {
        let at = HEAD_LEN as u64 + u64::from(len);
        self.records.write_at(at, octets)?;
        let head = head_of(Head {
            turn,
            len: len + octets.len() as u32,
            sum,
        });
        self.records.write_head(&head)
    }
}
