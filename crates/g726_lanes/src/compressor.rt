//! Signals to codes of G.711: block COMPRESS of ITU-T G.726.
ghost use Rattle.std.specs.Prelude.{◌≡◌, ◌<◌, ◌≤◌, ◌+◌, ◌-◌, ◌/◌, min, IsTrue, false, bit_xor};
ghost use Rattle.e1_g711.specs.Codes.{decision_value, interval_contains, zero_code};
ghost use Rattle.e1_g711.specs.Samples.{compress, magnitude_to_code};
ghost use Rattle.g726_quant.specs.Blocks.{log};
ghost use Rattle.g726_lanes.specs.Lanes.{lane, number, is_set, EachLane};

use crate::filter::parts_of;
use crate::logs::log;
use e1_g711::Law;
use std::simd::prelude::*;

// SP of signals in two's complement.
#[inline(always)]
pub(crate) fn codes_of(law: Law, signals: [u16; 8]) -> [u8; 8]
    ensures { EachLane (λ k. lane result k ≡ compress law (number signals k)) }
{
    let (negative, magnitudes) = parts_of(signals);
    codes_with(law, negative, numbers_for(law, negative, magnitudes))
}

// The positive code in the interval at zero.
#[inline(always)]
fn at_zero(law: Law) -> u16
    ensures { result ≡ zero_code law false }
{
    match law {
        Law::A => 0xD5,
        Law::Mu => 0xFF,
    }
}

// The codes of signs and of the numbers of intervals.
#[inline(always)]
fn codes_with(law: Law, negative: [u16; 8], numbers: [u16; 8]) -> [u8; 8]
    requires signs { EachLane (λ k. lane negative k < 2) }
    requires numbers { EachLane (λ k. lane numbers k < 128) }
    ensures { EachLane (λ k. lane result k
        ≡ bit_xor (lane numbers k) (zero_code law (is_set (lane negative k)))) }
{
    let signs = u16x8::from_array(negative) << u16x8::splat(7);
    (u16x8::from_array(numbers) ^ (u16x8::splat(at_zero(law)) - signs))
        .cast::<u8>()
        .to_array()
}

// The numbers of the intervals that contain magnitudes.
#[inline(always)]
fn numbers_for(law: Law, negative: [u16; 8], magnitudes: [u16; 8]) -> [u16; 8]
    requires signs { EachLane (λ k. lane negative k < 2) }
    requires magnitudes { EachLane (λ k. lane magnitudes k < 32768) }
    ensures bound { EachLane (λ k. lane result k < 128) }
    ensures interval { EachLane (λ k. IsTrue (interval_contains law (is_set (lane negative k)) (lane result k)
        (magnitude_to_code law (is_set (lane negative k)) (lane magnitudes k)))) }
{
    match law {
        Law::A => {
            let held = a_held(negative, magnitudes);
            a_numbers(held, log(held))
        }
        Law::Mu => {
            let held = mu_held(magnitudes);
            mu_numbers(held, log(held))
        }
    }
}

// The magnitudes to code in A-law, at most the last below its virtual decision value. A negative one is one
// less, since its interval contains its upper end (our choice in `e1_g711`).
#[inline(always)]
fn a_held(negative: [u16; 8], magnitudes: [u16; 8]) -> [u16; 8]
    requires { EachLane (λ k. lane negative k < 2) }
    ensures { EachLane (λ k. lane result k ≡ min ((lane magnitudes k - lane negative k) / 2) 4095) }
{
    let less = u16x8::from_array(magnitudes).saturating_sub(u16x8::from_array(negative));
    (less >> u16x8::splat(1))
        .simd_min(u16x8::splat(4095))
        .to_array()
}

// The magnitudes to code in mu-law, at most the last below its virtual decision value, with the bias by which
// segments begin at powers of 2.
#[inline(always)]
fn mu_held(magnitudes: [u16; 8]) -> [u16; 8]
    ensures { EachLane (λ k. lane result k ≡ min (lane magnitudes k) 8158 + 33) }
{
    (u16x8::from_array(magnitudes).simd_min(u16x8::splat(8158)) + u16x8::splat(33)).to_array()
}

// The last decision values of A-law at or below magnitudes, by their logarithms: from 32 on segments begin at
// powers of 2, below it the steps are 2.
#[inline(always)]
fn a_numbers(held: [u16; 8], logs: [u16; 8]) -> [u16; 8]
    requires held { EachLane (λ k. lane held k < 4096) }
    requires logs { EachLane (λ k. lane logs k ≡ log (lane held k)) }
    ensures bound { EachLane (λ k. lane result k < 128) }
    ensures lower { EachLane (λ k. decision_value Law.A (lane result k) ≤ lane held k) }
    ensures upper { EachLane (λ k. lane result k < 127
        → lane held k < decision_value Law.A (lane result k + 1)) }
{
    let held = u16x8::from_array(held);
    let numbers = (u16x8::from_array(logs) >> u16x8::splat(3)) - u16x8::splat(64);
    held.simd_lt(u16x8::splat(32))
        .select(held >> u16x8::splat(1), numbers)
        .to_array()
}

// The last decision values of mu-law at or below magnitudes, which have the bias, by their logarithms.
#[inline(always)]
fn mu_numbers(held: [u16; 8], logs: [u16; 8]) -> [u16; 8]
    requires low { EachLane (λ k. 33 ≤ lane held k) }
    requires high { EachLane (λ k. lane held k < 8192) }
    requires logs { EachLane (λ k. lane logs k ≡ log (lane held k)) }
    ensures bound { EachLane (λ k. lane result k < 128) }
    ensures lower { EachLane (λ k. decision_value Law.Mu (lane result k) + 33 ≤ lane held k) }
    ensures upper { EachLane (λ k. lane result k < 127
        → lane held k < decision_value Law.Mu (lane result k + 1) + 33) }
{
    ((u16x8::from_array(logs) >> u16x8::splat(3)) - u16x8::splat(80)).to_array()
}
