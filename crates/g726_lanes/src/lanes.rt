//! The encoders or the decoders of eight circuits at one rate (`Lanes`).
ghost use Rattle.std.specs.Prelude.{◌≡◌, ◌<◌, ◌^◌, ℕ, List, [], ◌∷◌, ◌++◌};
ghost use Rattle.g726_codec.specs.Codec.{at_reset, addb, stepped, word_for, sync, encoded, decoded};
ghost use Rattle.g726_codec.specs.Codec.{after_octets, after_words};
ghost use Rattle.g726_quant.specs.Tables.{RateTables};
ghost use Rattle.e1_g711.specs.Samples.{expand};
ghost use Rattle.g726_lanes.specs.Lanes.{lane, number, EachLane};
ghost use Rattle.g726_lanes.specs.States.{variables};

mod frames;
mod loading;

use crate::adaptations::Adaptations;
use crate::compressor::codes_of;
use crate::decoding::adjusted_codes;
use crate::encoding::{samples_of, subta};
use crate::filter::addc;
use crate::logs::antilog;
use crate::predictions::Predictions;
use crate::quantiser::{adda, quantise, reconst, word_is_negative, word_magnitude};
use e1_g711::Law;
use g726_quant::Rate;
use std::marker::Model;

/// Eight encoders or decoders of ITU-T G.726, circuit k in lane k, 0 to 7.
///
/// Contracts see the list of the eight circuits' variables.
#[derive(Drop)]
pub struct Lanes {
    adaptations: Adaptations,
    predictions: Predictions,
    // SEZ and SE, which follow from the variables
    zeros: [u16; 8],
    all: [u16; 8],
}

impl Model for Lanes {
    ghost use Rattle.std.specs.Prelude.{List};
    ghost use Rattle.g726_codec.specs.Codec.{Variables};
    ghost use Rattle.g726_lanes.specs.Lanes.{lanes};
    ghost use Rattle.g726_lanes.specs.States.{adaptation, predictor, AreEstimated};

    ghost Value = { List Variables };

    ghost view = { λ s. lanes (λ k. record {
      adaptation = adaptation s.adaptations k;
      prediction = predictor s.predictions k;
    }) };

    ghost invariant = { λ s. AreEstimated s.predictions s.zeros s.all };
}

impl Lanes {
    /// Each circuit at reset (ITU-T G.726, initialization).
    pub fn reset() -> Lanes
        ensures state { EachLane (λ k. variables result k ≡ at_reset) }
        ensures encoders { EachLane (λ k. (tables : RateTables) (law : Law)
            → variables result k ≡ after_octets tables law []) }
        ensures decoders { EachLane (λ k. (tables : RateTables)
            → variables result k ≡ after_words tables []) }
    {
        let predictions = Predictions::reset();
        let (zeros, all) = predictions.estimates();
        Lanes {
            adaptations: Adaptations::reset(),
            predictions,
            zeros,
            all,
        }
    }

    /// Updates each circuit by its word, a number below `2^bits` of the rate.
    ///
    /// Returns SR, the reconstructed signals, in two's complement (ITU-T G.726, RECONST to ADDB; the other
    /// blocks update the variables).
    pub fn step<R: Rate>(&mut self, words: [u16; 8]) -> [u16; 8]
        requires { EachLane (λ k. lane words k < 2 ^ R.tables.bits) }
        ensures signals { EachLane (λ k. number result k
            ≡ addb R.tables (variables self.old k) (lane words k)) }
        ensures state { EachLane (λ k. variables self.new k
            ≡ stepped R.tables (variables self.old k) (lane words k)) }
    {
        let places = word_magnitude::<R>(words);
        let negative = word_is_negative::<R>(words);
        let dq = antilog(adda(reconst::<R>(places), self.adaptations.scales()));
        let sr = addc(negative, dq, self.all);
        let tr = self.adaptations.transitions(dq);
        let tone = self
            .predictions
            .update::<R>(self.zeros, negative, dq, sr, tr);
        self.adaptations.update::<R>(places, tone, tr);
        (self.zeros, self.all) = self.predictions.estimates();
        sr
    }

    /// The words, below `2^bits` of the rate, of the next octet of each circuit, a code of a law.
    ///
    /// (ITU-T G.726, EXPAND to QUAN; the other blocks update the variables.)
    pub fn encode<R: Rate>(&mut self, law: Law, octets: [u8; 8]) -> [u16; 8]
        ensures words { EachLane (λ k. lane result k
            ≡ word_for R.tables (variables self.old k) (expand law (lane octets k))) }
        ensures bound { EachLane (λ k. lane result k < 2 ^ R.tables.bits) }
        ensures state { EachLane (λ k. variables self.new k
            ≡ stepped R.tables (variables self.old k) (lane result k)) }
        ensures history { EachLane (λ k. (given : List ℕ)
            → variables self.old k ≡ after_octets R.tables law given
            → (encoded R.tables law (given ++ lane octets k ∷ [])
            ≡ encoded R.tables law given ++ lane result k ∷ [])
            × (variables self.new k ≡ after_octets R.tables law (given ++ lane octets k ∷ []))) }
    {
        let d = subta(samples_of(law, octets), self.all);
        let words = quantise::<R>(d, self.adaptations.scales());
        self.step::<R>(words);
        words
    }

    /// The octets in a law of the next word of each circuit, a number below `2^bits` of the rate.
    ///
    /// (ITU-T G.726, RECONST to ADDB, COMPRESS, EXPAND, and SUBTA to SYNC; the other blocks update the
    /// variables.)
    pub fn decode<R: Rate>(&mut self, law: Law, words: [u16; 8]) -> [u8; 8]
        requires { EachLane (λ k. lane words k < 2 ^ R.tables.bits) }
        ensures octets { EachLane (λ k. lane result k
            ≡ sync R.tables law (variables self.old k) (lane words k)) }
        ensures state { EachLane (λ k. variables self.new k
            ≡ stepped R.tables (variables self.old k) (lane words k)) }
        ensures history { EachLane (λ k. (given : List ℕ)
            → variables self.old k ≡ after_words R.tables given
            → (decoded R.tables law (given ++ lane words k ∷ [])
            ≡ decoded R.tables law given ++ lane result k ∷ [])
            × (variables self.new k ≡ after_words R.tables (given ++ lane words k ∷ []))) }
    {
        let y = self.adaptations.scales();
        let all = self.all;
        let signals = self.step::<R>(words);
        let codes = codes_of(law, signals);
        let again = quantise::<R>(subta(samples_of(law, codes), all), y);
        adjusted_codes::<R>(law, codes, again, words)
    }
}
