//! The scale factors and speeds of eight circuits, and their update by one sample (`Adaptations`).
ghost use Rattle.std.specs.Prelude.{◌≡◌, ◌≤◌, ◌<◌};
ghost use Rattle.g726_quant.specs.Tables.{magnitudes};
ghost use Rattle.g726_tone.specs.Adaptation.{at_reset, scale, trans, adapted};
ghost use Rattle.g726_lanes.specs.Lanes.{lane, is_set, EachLane};
ghost use Rattle.g726_lanes.specs.States.{adaptation};

mod loading;

use crate::adapt::{cleared, dqthr, fast_scale, filta, filtb, filte, mix, speed, subtc, trans};
use crate::quantiser::{functf, functw};
use g726_quant::Rate;
use std::marker::Model;

// YU, YL, DMS, DML, AP and TD of eight circuits, and Y. YL is 64 times `whole` plus `fraction`.
#[derive(Drop)]
pub(crate) struct Adaptations {
    yu: [u16; 8],
    whole: [u16; 8],
    fraction: [u16; 8],
    dms: [u16; 8],
    dml: [u16; 8],
    ap: [u16; 8],
    td: [u16; 8],
    y: [u16; 8],
}

impl Model for Adaptations {
    ghost use Rattle.std.specs.Prelude.{List, pos, ◌+◌, ◌*◌};
    ghost use Rattle.g726_tone.specs.Adaptation.{Adaptation};
    ghost use Rattle.g726_lanes.specs.Lanes.{lane, is_set, lanes};
    ghost use Rattle.g726_lanes.specs.States.{AreKept};

    ghost Value = { List Adaptation };

    ghost view = { λ s. lanes (λ k. record {
      yu = pos (lane s.yu k);
      yl = pos (64 * lane s.whole k + lane s.fraction k);
      dms = pos (lane s.dms k);
      dml = pos (lane s.dml k);
      ap = pos (lane s.ap k);
      td = is_set (lane s.td k);
    }) };

    ghost invariant = { λ s. AreKept s.yu s.whole s.fraction s.dms s.dml s.ap s.y };
}

impl Adaptations {
    pub(crate) fn reset() -> Adaptations
        ensures { EachLane (λ k. adaptation result k ≡ at_reset) }
    {
        Adaptations {
            yu: [544; 8],
            whole: [544; 8],
            fraction: [0; 8],
            dms: [0; 8],
            dml: [0; 8],
            ap: [0; 8],
            td: [0; 8],
            y: [544; 8],
        }
    }

    // MIX: Y.
    #[inline(always)]
    pub(crate) fn scales(&self) -> [u16; 8]
        ensures value { EachLane (λ k. lane result k ≡ scale (adaptation self.now k)) }
        ensures low { EachLane (λ k. 544 ≤ lane result k) }
        ensures high { EachLane (λ k. lane result k ≤ 5120) }
    {
        self.y
    }

    // TRANS: TR.
    #[inline(always)]
    pub(crate) fn transitions(&self, magnitudes: [u16; 8]) -> [u16; 8]
        ensures { EachLane (λ k. is_set (lane result k) ≡ trans (adaptation self.now k) (lane magnitudes k)) }
    {
        trans(self.td, dqthr(self.whole), magnitudes)
    }

    // Updates the variables by one sample of each circuit: the magnitudes of its words, the tone flags before
    // a transition clears them, and TR.
    #[inline(always)]
    pub(crate) fn update<R: Rate>(&mut self, places: [u16; 8], tone: [u16; 8], tr: [u16; 8])
        requires { EachLane (λ k. lane places k < magnitudes R.tables.bits) }
        ensures { EachLane (λ k. adaptation self.new k ≡ adapted R.tables (adaptation self.old k)
            (lane places k) (is_set (lane tone k)) (is_set (lane tr k))) }
    {
        let y = self.y;
        let fi = functf::<R>(places);
        let yu = fast_scale(functw::<R>(places), y);
        let (whole, fraction) = filte(yu, self.whole, self.fraction);
        let dms = filta(fi, self.dms);
        let dml = filtb(fi, self.dml);
        let ap = speed(subtc(y, dms, dml, tone), tr, self.ap);
        *self = Adaptations {
            yu,
            whole,
            fraction,
            dms,
            dml,
            ap,
            td: cleared(tr, tone),
            y: mix(yu, whole, ap),
        };
    }
}
