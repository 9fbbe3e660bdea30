//! Octets of G.711 to differences from the estimates: blocks EXPAND and SUBTA of ITU-T G.726.
ghost use Rattle.std.specs.Prelude.{◌≡◌, ◌<◌, pos, negsuc, ◌-ℤ◌, ◌≤ℤ◌, unsigned_abs};
ghost use Rattle.std.specs.Int.{cast_signed, w16};
ghost use Rattle.e1_g711.specs.Samples.{expand};
ghost use Rattle.g726_quant.specs.Arithmetic.{wrap16};
ghost use Rattle.g726_lanes.specs.Lanes.{lane, number, EachLane};

use crate::lane::bits_of;
use e1_g711::{Law, expand};
use std::simd::prelude::*;

// EXPAND: SL of codes, in two's complement.
#[inline(always)]
#[tactic(auto, using(crate::proofs::Each::each_lane))]
pub(crate) fn samples_of(law: Law, octets: [u8; 8]) -> [u16; 8]
    ensures value { EachLane (λ k. number result k ≡ expand law (lane octets k)) }
    ensures low { EachLane (λ k. negsuc 8063 ≤ℤ number result k) }
    ensures high { EachLane (λ k. number result k ≤ℤ pos 8064) }
{
    [
        sample_of(law, octets[0]),
        sample_of(law, octets[1]),
        sample_of(law, octets[2]),
        sample_of(law, octets[3]),
        sample_of(law, octets[4]),
        sample_of(law, octets[5]),
        sample_of(law, octets[6]),
        sample_of(law, octets[7]),
    ]
}

// EXPAND: SL of a code, in two's complement.
#[inline(always)]
fn sample_of(law: Law, octet: u8) -> u16
    ensures value { cast_signed w16 result ≡ expand law octet }
    ensures low { negsuc 8063 ≤ℤ cast_signed w16 result }
    ensures high { cast_signed w16 result ≤ℤ pos 8064 }
{
    bits_of(expand(law, octet))
}

// SUBTA: D.
#[inline(always)]
pub(crate) fn subta(samples: [u16; 8], estimates: [u16; 8]) -> [u16; 8]
    requires low { EachLane (λ k. negsuc 8063 ≤ℤ number samples k) }
    requires high { EachLane (λ k. number samples k ≤ℤ pos 8064) }
    requires estimates_low { EachLane (λ k. negsuc 16383 ≤ℤ number estimates k) }
    requires estimates_high { EachLane (λ k. number estimates k ≤ℤ pos 16383) }
    ensures value { EachLane (λ k. number result k ≡ wrap16 (number samples k -ℤ number estimates k)) }
    ensures bound { EachLane (λ k. unsigned_abs (number result k) < 32768) }
{
    (u16x8::from_array(samples) - u16x8::from_array(estimates)).to_array()
}
