//! The adaptation of one circuit put into a lane, and taken from it.

ghost use Rattle.std.specs.Prelude.{◌≡◌, ◌≢◌, ◌<◌};
ghost use Rattle.g726_lanes.specs.Lanes.{EachLane};
ghost use Rattle.g726_lanes.specs.States.{adaptation};

use crate::adaptations::Adaptations;
use crate::lane::put_lane;
use g726_tone::{Adapt, AdaptNumbers};

impl Adaptations {
    pub(crate) fn load(&mut self, k: usize, adapt: &Adapt)
        requires { k < 8 }
        ensures loaded { adaptation self.new k ≡ adapt.now }
        ensures others { EachLane (λ j. j ≢ k → adaptation self.new j ≡ adaptation self.old j) }
    {
        let numbers = adapt.numbers();
        put_lane(&mut self.yu, k, numbers.yu);
        put_lane(&mut self.whole, k, (numbers.yl / 64) as u16);
        put_lane(&mut self.fraction, k, (numbers.yl % 64) as u16);
        put_lane(&mut self.dms, k, numbers.dms);
        put_lane(&mut self.dml, k, numbers.dml);
        put_lane(&mut self.ap, k, numbers.ap);
        put_lane(&mut self.td, k, u16::from(numbers.td));
        put_lane(&mut self.y, k, adapt.scale());
    }

    pub(crate) fn store(&self, k: usize) -> Adapt
        requires { k < 8 }
        ensures { result ≡ adaptation self.now k }
    {
        Adapt::of_numbers(AdaptNumbers {
            yu: self.yu[k],
            yl: u32::from(self.whole[k]) * 64 + u32::from(self.fraction[k]),
            dms: self.dms[k],
            dml: self.dml[k],
            ap: self.ap[k],
            td: self.td[k] > 0,
        })
    }
}
