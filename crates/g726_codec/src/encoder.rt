//! The encoder of ITU-T G.726 at one rate, octets of G.711 to code words (`Encoder`).
ghost use Rattle.std.specs.Prelude.{◌≡◌, ◌<◌, ◌^◌, ℕ, List, [], ◌∷◌, ◌++◌, length};
ghost use Rattle.std.specs.List.{All};
ghost use Rattle.e1_g711.specs.Samples.{expand};
ghost use Rattle.g726_codec.specs.Codec.{at_reset, word_for, stepped, encoded, after_octets};
ghost use Rattle.g726_codec.specs.Codec.{words_from, state_after};

mod saving;

use crate::state::{State, word_of};
use e1_g711::Law;
use g726_quant::{Rate, Word};
use std::marker::{Model, PhantomData};

/// An encoder of ITU-T G.726 at one rate.
///
/// Contracts see the variables of the Recommendation.
#[derive(Drop)]
pub struct Encoder<R: Rate> {
    state: State,
    rate: PhantomData<R>,
}

impl<R: Rate> Model for Encoder<R> {
    ghost use Rattle.g726_codec.specs.Codec.{Variables};

    ghost Value = { Variables };

    ghost view = { λ e. e.state };
}

impl<R: Rate> Encoder<R> {
    /// The encoder that has this state.
    pub fn of_state(state: State) -> Encoder<R>
        ensures { result ≡ state }
    {
        Encoder {
            state,
            rate: PhantomData,
        }
    }

    /// The same encoder once more.
    pub fn copy(&self) -> Encoder<R>
        ensures { result ≡ self.now }
    {
        Encoder::of_state(self.state.copy())
    }

    /// Its state.
    pub fn state(&self) -> &State
        ensures { result.now ≡ self.now }
    {
        &self.state
    }

    /// An encoder at reset (ITU-T G.726, initialization).
    pub fn reset() -> Encoder<R>
        ensures state { result ≡ at_reset }
        ensures stands { (law : Law) → result ≡ after_octets R.tables law [] }
    {
        Encoder {
            state: State::reset(),
            rate: PhantomData,
        }
    }

    /// The word of the next octet, a code of a law.
    ///
    /// (ITU-T G.726, EXPAND to QUAN; the other blocks update the state.)
    #[inline(always)]
    pub fn encode(&mut self, law: Law, octet: u8) -> Word<R>
        ensures word { result ≡ word_for R.tables self.old (expand law octet) }
        ensures state { self.new ≡ stepped R.tables self.old result }
        ensures words { (octets : List ℕ) → self.old ≡ after_octets R.tables law octets
            → encoded R.tables law (octets ++ octet ∷ []) ≡ encoded R.tables law octets ++ result ∷ [] }
        ensures stands { (octets : List ℕ) → self.old ≡ after_octets R.tables law octets
            → self.new ≡ after_octets R.tables law (octets ++ octet ∷ []) }
    {
        let forecast = self.state.forecast();
        let word = word_of::<R>(law, octet, forecast);
        self.state.step(word, forecast);
        word
    }

    /// Replaces octets, codes of a law, by their words.
    pub fn encode_all(&mut self, law: Law, octets: &mut [u8])
        ensures len { length octets.new ≡ length octets.old }
        ensures fit { All (λ word. word < 2 ^ R.tables.bits) octets.new }
        ensures words { octets.new ≡ words_from R.tables law self.old octets.old }
        ensures state { self.new ≡ state_after R.tables self.old octets.new }
    {
        for octet in octets.iter_mut() {
            *octet = self.encode(law, *octet).get();
        }
    }
}
