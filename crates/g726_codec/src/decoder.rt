//! The decoder of ITU-T G.726, with the synchronous coding adjustment, block SYNC (`Decoder`).
ghost use Rattle.std.specs.Prelude.{◌≡◌, ℕ, List, [], ◌∷◌, ◌++◌};
ghost use Rattle.g726_codec.specs.Codec.{at_reset, stepped, adjusted, sync, decoded, after_words};

mod saving;

use crate::state::{State, word_of};
use e1_g711::{Law, compress, next_down, next_up};
use g726_quant::{Rate, Word, order};
use std::marker::{Model, PhantomData};
use std::mem;

/// A decoder of ITU-T G.726 at one rate.
///
/// Contracts see the variables of the Recommendation.
#[derive(Drop)]
pub struct Decoder<R: Rate> {
    state: State,
    rate: PhantomData<R>,
}

impl<R: Rate> Model for Decoder<R> {
    ghost use Rattle.g726_codec.specs.Codec.{Variables};

    ghost Value = { Variables };

    ghost view = { λ d. d.state };
}

// SYNC: the code, or its neighbour toward the received word, by the order of the two words.
fn adjusted(law: Law, code: u8, id: u8, im: u8) -> u8
    ensures { result ≡ adjusted law code id im }
{
    if id == im {
        code
    } else if id < im {
        next_up(law, code)
    } else {
        next_down(law, code)
    }
}

impl<R: Rate> Decoder<R> {
    /// The decoder that has this state.
    pub fn of_state(state: State) -> Decoder<R>
        ensures { result ≡ state }
    {
        Decoder {
            state,
            rate: PhantomData,
        }
    }

    /// The same decoder once more.
    pub fn copy(&self) -> Decoder<R>
        ensures { result ≡ self.now }
    {
        Decoder::of_state(self.state.copy())
    }

    /// Its state.
    pub fn state(&self) -> &State
        ensures { result.now ≡ self.now }
    {
        &self.state
    }

    /// Replaces its state, and returns the one before.
    pub fn replace(&mut self, state: State) -> State
        ensures before { result ≡ self.old }
        ensures state { self.new ≡ state }
    {
        mem::replace(&mut self.state, state)
    }

    /// A decoder at reset (ITU-T G.726, initialization).
    pub fn reset() -> Decoder<R>
        ensures state { result ≡ at_reset }
        ensures stands { result ≡ after_words R.tables [] }
    {
        Decoder {
            state: State::reset(),
            rate: PhantomData,
        }
    }

    /// The octet of the next word in a law.
    ///
    /// (ITU-T G.726, RECONST to ADDB, COMPRESS, EXPAND, and SUBTA to SYNC; the other blocks update the
    /// state.)
    #[inline(always)]
    pub fn decode(&mut self, law: Law, word: Word<R>) -> u8
        ensures octet { result ≡ sync R.tables law self.old word }
        ensures state { self.new ≡ stepped R.tables self.old word }
        ensures octets { (words : List ℕ) → self.old ≡ after_words R.tables words
            → decoded R.tables law (words ++ word ∷ []) ≡ decoded R.tables law words ++ result ∷ [] }
        ensures stands { (words : List ℕ) → self.old ≡ after_words R.tables words
            → self.new ≡ after_words R.tables (words ++ word ∷ []) }
    {
        let forecast = self.state.forecast();
        let sr = self.state.step(word, forecast);
        let sp = compress(law, sr);
        let id = order(word_of::<R>(law, sp, forecast));
        let im = order(word);
        adjusted(law, sp, id, im)
    }
}
