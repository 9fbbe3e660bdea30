//! A code word to its quantised difference DQ: blocks RECONST, ADDA and ANTILOG of ITU-T G.726.

ghost use Rattle.std.specs.Prelude.{◌≡◌, ◌≤◌, ◌<◌, pos, negsuc, ◌≤ℤ◌};
ghost use Rattle.g726_quant.specs.Arithmetic.{signed};
ghost use Rattle.g726_quant.specs.Blocks.{word_is_negative, adda, reconstructed};

use crate::logarithm::antilog;
use crate::rate::{Rate, reconst};
use crate::word::{Word, magnitude, word_is_negative};

/// DQ, a quantised difference: its sign, also of 0, and its magnitude.
#[derive(Clone, Copy, Debug, PartialEq, Eq)]
pub struct Dq {
    /// DQS, whether the sign is minus; -0 has it.
    pub negative: bool,
    /// DQMAG, at most 32767.
    pub mag: u16,
    ghost in_range: { mag ≤ 32767 },
}

impl Dq {
    /// The difference as a number, in which -0 is 0.
    pub fn signed(self) -> i32
        ensures value { result ≡ signed self.negative self.mag }
        ensures low { negsuc 32766 ≤ℤ result }
        ensures high { result ≤ℤ pos 32767 }
    {
        let magnitude = self.mag as i32;
        if self.negative { -magnitude } else { magnitude }
    }
}

/// DQ, the quantised difference of a code word at a scale factor.
///
/// It is +22 for 7 at `y` = 544 and 32 kbit/s (ITU-T G.726, blocks RECONST, ADDA and ANTILOG).
#[tactic(auto, unfolding(crate::specs::Blocks::reconstructed))]
pub fn reconstruct<R: Rate>(word: Word<R>, y: u16) -> Dq
    requires low { 544 ≤ y }
    requires high { y ≤ 5120 }
    ensures sign { result.negative ≡ word_is_negative R.tables.bits word }
    ensures magnitude { result.mag ≡ reconstructed R.tables word y }
    ensures bound { result.mag ≤ 32767 }
{
    let dqln = reconst::<R>(magnitude(word));
    Dq {
        negative: word_is_negative::<R>(word.get()),
        mag: antilog(adda(dqln, y)),
    }
}

// DQL, a level plus the scale factor, in twelve bits (block ADDA).
fn adda(dqln: i16, y: u16) -> u16
    requires dqln_low { negsuc 2047 ≤ℤ dqln }
    requires dqln_high { dqln ≤ℤ pos 566 }
    requires low { 544 ≤ y }
    requires high { y ≤ 5120 }
    ensures value { result ≡ adda dqln y }
    ensures bound { result < 4096 }
    ensures whole { result < 2048 → result < 1920 }
{
    (dqln + (y >> 2) as i16).rem_euclid(4096) as u16
}
