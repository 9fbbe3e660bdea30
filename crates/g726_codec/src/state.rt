//! The update of encoder and decoder by a code word (`State::step`): SUBTA and ADDB of ITU-T G.726.
ghost use Rattle.std.specs.Prelude.{◌≡◌, ◌≤◌, pos, negsuc, ◌≤ℤ◌, ◌+ℤ◌, ◌-ℤ◌};
ghost use Rattle.e1_g711.specs.Samples.{expand};
ghost use Rattle.g726_quant.specs.Arithmetic.{signed, wrap16};
ghost use Rattle.g726_quant.specs.Blocks.{quantised};
ghost use Rattle.g726_tone.specs.Adaptation.{scale};
ghost use Rattle.g726_predict.specs.Predictor.{se};
ghost use Rattle.g726_codec.specs.Codec.{at_reset, word_for, addb, stepped};

mod saving;

use e1_g711::{Law, expand};
use g726_predict::Predictor;
use g726_quant::{Dq, Rate, Word, magnitude, quantise, reconstruct, wrap16};
use g726_tone::Adapt;
use std::marker::Model;

// SE and Y, from the state before a sample.
#[derive(Clone, Copy)]
pub(crate) struct EstimateAndScale {
    pub(crate) se: i16,
    pub(crate) y: u16,
    ghost se_low: { negsuc 16383 ≤ℤ se },
    ghost se_high: { se ≤ℤ pos 16383 },
    ghost y_low: { 544 ≤ y },
    ghost y_high: { y ≤ 5120 },
}

/// The state of an encoder or of a decoder, which both have alike.
///
/// Contracts see the variables of ITU-T G.726.
#[derive(Drop)]
pub struct State {
    adapt: Adapt,
    predictor: Predictor,
}

impl Model for State {
    ghost use Rattle.g726_codec.specs.Codec.{Variables};

    ghost Value = { Variables };

    ghost view = { λ s. record { adaptation = s.adapt; prediction = s.predictor } };
}

impl State {
    /// The state of an adaptation and a predictor.
    pub fn new(adapt: Adapt, predictor: Predictor) -> State
        ensures { result ≡ record { adaptation = adapt; prediction = predictor } }
    {
        State { adapt, predictor }
    }

    /// The adaptation: YU, YL, DMS, DML, AP and TD.
    pub fn adapt(&self) -> &Adapt
        ensures { result.now ≡ self.now.adaptation }
    {
        &self.adapt
    }

    /// The predictor: A1, A2, B1 to B6, DQ1 to DQ6, SR1, SR2, PK1 and PK2.
    pub fn predictor(&self) -> &Predictor
        ensures { result.now ≡ self.now.prediction }
    {
        &self.predictor
    }

    /// The same state once more.
    pub fn copy(&self) -> State
        ensures { result ≡ self.now }
    {
        let (numbers, pk1, pk2) = self.predictor.numbers();
        State {
            adapt: Adapt::of_numbers(self.adapt.numbers()),
            predictor: Predictor::of_numbers(numbers, pk1, pk2).unwrap(),
        }
    }

    /// The state at reset (ITU-T G.726, initialization).
    pub fn reset() -> State
        ensures { result ≡ at_reset }
    {
        State {
            adapt: Adapt::reset(),
            predictor: Predictor::reset(),
        }
    }

    pub(crate) fn forecast(&self) -> EstimateAndScale
        ensures estimate { result.se ≡ se self.now.prediction }
        ensures scale { result.y ≡ scale self.now.adaptation }
    {
        EstimateAndScale {
            se: self.predictor.estimate().1,
            y: self.adapt.scale(),
        }
    }

    // Updates the state by a word.
    //
    // Returns SR, the reconstructed signal.
    pub(crate) fn step<R: Rate>(&mut self, word: Word<R>, forecast: EstimateAndScale) -> i16
        requires estimate { forecast.se ≡ se self.old.prediction }
        requires scale { forecast.y ≡ scale self.old.adaptation }
        ensures signal { result ≡ addb R.tables self.old word }
        ensures state { self.new ≡ stepped R.tables self.old word }
    {
        let dq = reconstruct::<R>(word, forecast.y);
        let sr = addb(dq, forecast.se);
        let tr = self.adapt.transition(&dq);
        let tone = self.predictor.update::<R>(&dq, sr, tr);
        self.adapt.update::<R>(magnitude(word), tone, tr);
        sr
    }
}

// SUBTA: D, the difference of SL and SE. Both are far from the ends of 16 bits, and so is D.
fn subta(sl: i16, se: i16) -> i16
    requires sl_low { negsuc 8063 ≤ℤ sl }
    requires sl_high { sl ≤ℤ pos 8064 }
    requires se_low { negsuc 16383 ≤ℤ se }
    requires se_high { se ≤ℤ pos 16383 }
    ensures value { result ≡ wrap16 (sl -ℤ se) }
    ensures low { negsuc 24446 ≤ℤ result }
{
    wrap16(sl as i32 - se as i32)
}

// SUBTA, LOG, SUBTB and QUAN: the word for an octet.
pub(crate) fn word_of<R: Rate>(law: Law, octet: u8, forecast: EstimateAndScale) -> Word<R>
    ensures { result ≡ quantised R.tables (wrap16 (expand law octet -ℤ forecast.se)) forecast.y }
{
    quantise::<R>(subta(expand(law, octet), forecast.se), forecast.y)
}

// ADDB: SR, the reconstructed signal.
fn addb(dq: Dq, se: i16) -> i16
    ensures { result ≡ wrap16 (signed dq.negative dq.mag +ℤ se) }
{
    wrap16(dq.signed() + se as i32)
}
