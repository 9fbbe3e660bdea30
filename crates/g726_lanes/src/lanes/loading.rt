//! The state of one circuit put into a lane, and taken from it.

ghost use Rattle.std.specs.Prelude.{◌≡◌, ◌≢◌, ◌<◌};
ghost use Rattle.g726_lanes.specs.Lanes.{EachLane};
ghost use Rattle.g726_lanes.specs.States.{variables};

use crate::lane::{bits_of, lane, put_lane};
use crate::lanes::Lanes;
use g726_codec::State;
use g726_predict::Predictor;

impl Lanes {
    /// Puts the state of an encoder or a decoder into lane `k`, 0 to 7. The other lanes stay as they are.
    pub fn load(&mut self, k: usize, state: &State)
        requires { k < 8 }
        ensures loaded { variables self.new k ≡ state.now }
        ensures others { EachLane (λ j. j ≢ k → variables self.new j ≡ variables self.old j) }
    {
        let (sez, se) = state.predictor().estimate();
        self.adaptations.load(k, state.adapt());
        self.predictions.load(k, state.predictor());
        put_lane(&mut self.zeros, k, bits_of(sez));
        put_lane(&mut self.all, k, bits_of(se));
    }

    /// The state in lane `k`, 0 to 7.
    pub fn store(&self, k: usize) -> State
        requires { k < 8 }
        ensures { result ≡ variables self.now k }
    {
        let zeros = lane(self.zeros, k).cast_signed();
        let all = lane(self.all, k).cast_signed();
        let predictor = Predictor::of_filter(self.predictions.store(k), zeros, all);
        State::new(self.adaptations.store(k), predictor)
    }
}
