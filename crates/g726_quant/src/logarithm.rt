//! Logarithms to base 2 and their inverse: blocks LOG and ANTILOG of ITU-T G.726.

ghost use Rattle.std.specs.Prelude.{◌≡◌, ◌≤◌, ◌<◌, ◌-◌};
ghost use Rattle.g726_quant.specs.Blocks.{exponent, log, antilog};

// bit 11 of a twelve-bit logarithm, set for a number below 1
const SIGN_BIT: u16 = 2048;

// EXP, the place of the highest bit set, from 0; 0 for 0.
fn exponent(magnitude: u16) -> u32
    requires { magnitude < 32768 }
    ensures value { result ≡ exponent magnitude }
    ensures bound { result ≤ 14 }
{
    magnitude.max(1).ilog2()
}

// DL, the logarithm of a magnitude (block LOG).
#[tactic(auto, unfolding(crate::specs::Blocks::log))]
pub(crate) fn log(magnitude: u16) -> u16
    requires { magnitude < 32768 }
    ensures value { result ≡ log magnitude }
    ensures bound { result < 1920 }
{
    let exponent = exponent(magnitude);
    let mantissa = ((magnitude as u32) << 7 >> exponent) % 128;
    (128 * exponent + mantissa) as u16
}

// DQMAG, the number with a twelve-bit logarithm DQL; 0 if its sign bit is set (block ANTILOG).
#[tactic(auto, unfolding(crate::specs::Blocks::antilog))]
pub(crate) fn antilog(dql: u16) -> u16
    requires fits { dql < 4096 }
    requires whole { dql < 2048 → dql < 1920 }
    ensures value { result ≡ antilog dql }
    ensures bound { result ≤ 32767 }
{
    if dql >= SIGN_BIT {
        0
    } else {
        ((128 + dql % 128) << 7) >> (14 - (dql >> 7))
    }
}
