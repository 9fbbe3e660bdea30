//! Logarithms of eight magnitudes, and their words in floating form: blocks LOG, ANTILOG, FLOATA and FLOATB.
ghost use Rattle.std.specs.Prelude.{◌≡◌, ◌<◌, ◌≤◌};
ghost use Rattle.g726_quant.specs.Blocks.{log, antilog};
ghost use Rattle.g726_predict.specs.Float.{float_word};
ghost use Rattle.g726_predict.specs.Words.{unpacked};
ghost use Rattle.g726_lanes.specs.Lanes.{lane, is_set, EachLane};

use std::simd::prelude::*;

// LOG: DL.
#[inline(always)]
pub(crate) fn log(magnitudes: [u16; 8]) -> [u16; 8]
    requires { EachLane (λ k. lane magnitudes k < 32768) }
    ensures value { EachLane (λ k. lane result k ≡ log (lane magnitudes k)) }
    ensures bound { EachLane (λ k. lane result k < 1920) }
{
    let floats = u16x8::from_array(magnitudes)
        .cast::<i32>()
        .cast::<f32>()
        .to_bits();
    let halves = (floats >> u32x8::splat(16)).cast::<u16>();
    halves.saturating_sub(u16x8::splat(16256)).to_array()
}

// FLOATA, FLOATB: the words of signs and magnitudes.
#[inline(always)]
pub(crate) fn float_words(negative: [u16; 8], magnitudes: [u16; 8]) -> [u16; 8]
    requires signs { EachLane (λ k. lane negative k < 2) }
    requires magnitudes { EachLane (λ k. lane magnitudes k < 32768) }
    ensures value { EachLane (λ k. unpacked (lane result k)
        ≡ float_word (is_set (lane negative k)) (lane magnitudes k)) }
    ensures bound { EachLane (λ k. lane result k < 2048) }
{
    let floats = u16x8::from_array(magnitudes)
        .cast::<i32>()
        .cast::<f32>()
        .to_bits();
    let halves = (floats >> u32x8::splat(16)).cast::<u16>();
    let held = (halves >> u16x8::splat(2)).simd_max(u16x8::splat(4032));
    let plus = held + held - (held & u16x8::splat(31)) - u16x8::splat(8032);
    (plus + (u16x8::from_array(negative) << u16x8::splat(10))).to_array()
}

// ANTILOG: DQMAG of twelve-bit logarithms.
#[inline(always)]
pub(crate) fn antilog(logs: [u16; 8]) -> [u16; 8]
    requires fits { EachLane (λ k. lane logs k < 4096) }
    requires whole { EachLane (λ k. lane logs k < 2048 → lane logs k < 1920) }
    ensures value { EachLane (λ k. lane result k ≡ antilog (lane logs k)) }
    ensures bound { EachLane (λ k. lane result k < 32768) }
{
    let logs = u16x8::from_array(logs);
    let mantissas = ((logs & u16x8::splat(127)) + u16x8::splat(128)).cast::<u32>();
    let places = (logs >> u16x8::splat(7)) & u16x8::splat(15);
    let shifted = (mantissas << places.cast::<u32>()) >> u32x8::splat(7);
    let numbers = (shifted & u32x8::splat(65535)).cast::<u16>();
    logs.simd_ge(u16x8::splat(2048))
        .select(u16x8::splat(0), numbers)
        .to_array()
}
