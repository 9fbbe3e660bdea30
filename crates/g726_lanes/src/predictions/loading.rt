//! The prediction of one circuit put into a lane, and taken from it.

ghost use Rattle.std.specs.Prelude.{◌≡◌, ◌≢◌, ◌<◌};
ghost use Rattle.std.specs.Int.{cast_signed, is_negative, w16};
ghost use Rattle.g726_lanes.specs.Lanes.{EachLane};
ghost use Rattle.g726_lanes.specs.States.{predictor};

use crate::lane::{lane, put_lane};
use crate::predictions::Predictions;
use g726_predict::{Filter, Predictor};

// A number whose sign is that of P.
fn signed(negative: bool) -> u16
    ensures { is_negative (cast_signed w16 result) ≡ negative }
{
    if negative { 32768 } else { 0 }
}

impl Predictions {
    pub(crate) fn load(&mut self, k: usize, from: &Predictor)
        requires { k < 8 }
        ensures loaded { predictor self.new k ≡ from.now }
        ensures others { EachLane (λ j. j ≢ k → predictor self.new j ≡ predictor self.old j) }
    {
        let (numbers, pk1, pk2) = from.numbers();
        put_lane(&mut self.b1, k, numbers[0]);
        put_lane(&mut self.b2, k, numbers[1]);
        put_lane(&mut self.b3, k, numbers[2]);
        put_lane(&mut self.b4, k, numbers[3]);
        put_lane(&mut self.b5, k, numbers[4]);
        put_lane(&mut self.b6, k, numbers[5]);
        put_lane(&mut self.a1, k, numbers[6]);
        put_lane(&mut self.a2, k, numbers[7]);
        put_lane(&mut self.dq1, k, numbers[8]);
        put_lane(&mut self.dq2, k, numbers[9]);
        put_lane(&mut self.dq3, k, numbers[10]);
        put_lane(&mut self.dq4, k, numbers[11]);
        put_lane(&mut self.dq5, k, numbers[12]);
        put_lane(&mut self.dq6, k, numbers[13]);
        put_lane(&mut self.sr1, k, numbers[14]);
        put_lane(&mut self.sr2, k, numbers[15]);
        put_lane(&mut self.p1, k, signed(pk1));
        put_lane(&mut self.p2, k, signed(pk2));
    }

    pub(crate) fn store(&self, k: usize) -> Filter
        requires { k < 8 }
        ensures { result ≡ predictor self.now k }
    {
        let numbers = [
            lane(self.b1, k),
            lane(self.b2, k),
            lane(self.b3, k),
            lane(self.b4, k),
            lane(self.b5, k),
            lane(self.b6, k),
            lane(self.a1, k),
            lane(self.a2, k),
            lane(self.dq1, k),
            lane(self.dq2, k),
            lane(self.dq3, k),
            lane(self.dq4, k),
            lane(self.dq5, k),
            lane(self.dq6, k),
            lane(self.sr1, k),
            lane(self.sr2, k),
        ];
        Filter::of_numbers(numbers, lane(self.p1, k) > 32767, lane(self.p2, k) > 32767).unwrap()
    }
}
