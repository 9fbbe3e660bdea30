//! ITU-T G.726: code words, quantisers and their tables, and 16-bit two's complement (`wrap16`).
#![tactic(auto)]

ghost use Rattle.std.specs.Prelude.{◌≡◌};
ghost use Rattle.g726_quant.specs.Arithmetic.{wrap16};

mod inverse;
pub mod laws;
mod logarithm;
mod quantiser;
mod rate;
mod word;

pub use inverse::{Dq, reconstruct};
pub use quantiser::quantise;
pub use rate::{R16, R24, R32, R40, Rate, functf, functw, leak};
pub use word::{Word, magnitude, order};

/// The 16-bit signed number congruent to `z` modulo 65536 (ITU-T G.726, two's complement).
pub fn wrap16(z: i32) -> i16
    ensures { result ≡ wrap16 z }
{
    (z.rem_euclid(65_536) as u16).cast_signed()
}
