//! The delayed variables of eight circuits and their update by one sample (`Predictions`).
ghost use Rattle.std.specs.Prelude.{◌≡◌, ◌<◌};
ghost use Rattle.g726_predict.specs.Predictor.{at_reset, sez, se, updated, tone};
ghost use Rattle.g726_lanes.specs.Lanes.{lane, number, is_set, EachLane};
ghost use Rattle.g726_lanes.specs.States.{predictor};

mod loading;

use crate::filter::{accumulate, addc, halved, parts_of, tones, trigb, update_b};
use crate::logs::float_words;
use crate::poles::{update_a1, update_a2};
use g726_quant::Rate;
use std::marker::Model;

// The variables A1, A2, B1 to B6, DQ1 to DQ6, SR1, SR2 of eight circuits, and P of the last two samples.
#[derive(Drop)]
pub(crate) struct Predictions {
    b1: [u16; 8],
    b2: [u16; 8],
    b3: [u16; 8],
    b4: [u16; 8],
    b5: [u16; 8],
    b6: [u16; 8],
    a1: [u16; 8],
    a2: [u16; 8],
    dq1: [u16; 8],
    dq2: [u16; 8],
    dq3: [u16; 8],
    dq4: [u16; 8],
    dq5: [u16; 8],
    dq6: [u16; 8],
    sr1: [u16; 8],
    sr2: [u16; 8],
    p1: [u16; 8],
    p2: [u16; 8],
}

impl Model for Predictions {
    ghost use Rattle.std.specs.Prelude.{List, [], ◌∷◌, ◌<◌};
    ghost use Rattle.std.specs.Simd.Lanes.{Each1};
    ghost use Rattle.g726_predict.specs.Words.{unpacked};
    ghost use Rattle.g726_predict.specs.Predictor.{Prediction};
    ghost use Rattle.g726_lanes.specs.Lanes.{lane, number, minus, lanes, EachLane};

    ghost Value = { List Prediction };

    ghost view = { λ s. lanes (λ k. record {
      a1 = number s.a1 k;
      a2 = number s.a2 k;
      b = number s.b1 k ∷ number s.b2 k ∷ number s.b3 k ∷ number s.b4 k ∷ number s.b5 k ∷ number s.b6 k ∷ [];
      dq = unpacked (lane s.dq1 k) ∷ unpacked (lane s.dq2 k) ∷ unpacked (lane s.dq3 k)
          ∷ unpacked (lane s.dq4 k) ∷ unpacked (lane s.dq5 k) ∷ unpacked (lane s.dq6 k) ∷ [];
      sr = unpacked (lane s.sr1 k) ∷ unpacked (lane s.sr2 k) ∷ [];
      pk1 = minus s.p1 k;
      pk2 = minus s.p2 k;
    }) };

    ghost invariant = { λ s. Each1 (λ words. EachLane (λ k. lane words k < 2048))
        (s.dq1 ∷ s.dq2 ∷ s.dq3 ∷ s.dq4 ∷ s.dq5 ∷ s.dq6 ∷ s.sr1 ∷ s.sr2 ∷ []) };
}

impl Predictions {
    pub(crate) fn reset() -> Predictions
        ensures { EachLane (λ k. predictor result k ≡ at_reset) }
    {
        Predictions {
            b1: [0; 8],
            b2: [0; 8],
            b3: [0; 8],
            b4: [0; 8],
            b5: [0; 8],
            b6: [0; 8],
            a1: [0; 8],
            a2: [0; 8],
            dq1: [32; 8],
            dq2: [32; 8],
            dq3: [32; 8],
            dq4: [32; 8],
            dq5: [32; 8],
            dq6: [32; 8],
            sr1: [32; 8],
            sr2: [32; 8],
            p1: [0; 8],
            p2: [0; 8],
        }
    }

    // ACCUM: SEZ and SE.
    pub(crate) fn estimates(&self) -> ([u16; 8], [u16; 8])
        ensures zeros { EachLane (λ k. number result.0 k ≡ sez (predictor self.now k)) }
        ensures all { EachLane (λ k. number result.1 k ≡ se (predictor self.now k)) }
    {
        let b1 = accumulate([0; 8], self.b1, self.dq1);
        let b2 = accumulate(b1, self.b2, self.dq2);
        let b3 = accumulate(b2, self.b3, self.dq3);
        let b4 = accumulate(b3, self.b4, self.dq4);
        let b5 = accumulate(b4, self.b5, self.dq5);
        let zeros = accumulate(b5, self.b6, self.dq6);
        let a1 = accumulate(zeros, self.a1, self.sr1);
        let all = accumulate(a1, self.a2, self.sr2);
        (halved(zeros), halved(all))
    }

    // Updates the variables by one sample of each circuit. Returns the tone flags before a transition clears
    // them.
    pub(crate) fn update<R: Rate>(
        &mut self,
        zeros: [u16; 8],
        negative: [u16; 8],
        magnitudes: [u16; 8],
        sr: [u16; 8],
        tr: [u16; 8],
    ) -> [u16; 8]
        requires zeros { EachLane (λ k. number zeros k ≡ sez (predictor self.old k)) }
        requires signs { EachLane (λ k. lane negative k < 2) }
        requires magnitudes { EachLane (λ k. lane magnitudes k < 32768) }
        ensures state { EachLane (λ k. predictor self.new k ≡ updated R.tables.leak (predictor self.old k)
            (is_set (lane negative k)) (lane magnitudes k) (number sr k) (is_set (lane tr k))) }
        ensures tone { EachLane (λ k. is_set (lane result k)
            ≡ tone (predictor self.old k) (is_set (lane negative k)) (lane magnitudes k)) }
    {
        let p = addc(negative, magnitudes, zeros);
        let a2 = update_a2(self.a1, self.a2, p, self.p1, self.p2);
        let a1 = update_a1(self.a1, a2, p, self.p1);
        self.a1 = trigb(tr, a1);
        self.a2 = trigb(tr, a2);
        self.b1 = update_b::<R>(self.b1, self.dq1, magnitudes, negative, tr);
        self.b2 = update_b::<R>(self.b2, self.dq2, magnitudes, negative, tr);
        self.b3 = update_b::<R>(self.b3, self.dq3, magnitudes, negative, tr);
        self.b4 = update_b::<R>(self.b4, self.dq4, magnitudes, negative, tr);
        self.b5 = update_b::<R>(self.b5, self.dq5, magnitudes, negative, tr);
        self.b6 = update_b::<R>(self.b6, self.dq6, magnitudes, negative, tr);
        self.dq6 = self.dq5;
        self.dq5 = self.dq4;
        self.dq4 = self.dq3;
        self.dq3 = self.dq2;
        self.dq2 = self.dq1;
        self.dq1 = float_words(negative, magnitudes);
        let (signs, parts) = parts_of(sr);
        self.sr2 = self.sr1;
        self.sr1 = float_words(signs, parts);
        self.p2 = self.p1;
        self.p1 = p;
        tones(a2)
    }
}
