//! The quantisers of eight circuits and their inverse: blocks SUBTB, QUAN, RECONST, ADDA, FUNCTW and FUNCTF.
ghost use Rattle.std.specs.Prelude.{◌≡◌, ◌-◌, nat_lt, unsigned_abs, if◌then◌else◌, ◌≤◌, ◌<◌, ◌^◌, ◌+ℤ◌, ℕ, ℤ};
ghost use Rattle.std.specs.Prelude.{pos, negsuc, ◌≤ℤ◌, length, slice_index_or};
ghost use Rattle.std.specs.Int.{cast_signed, w16};
ghost use Rattle.g726_quant.specs.Tables.{magnitudes};
ghost use Rattle.g726_quant.specs.Blocks.{adda, word_magnitude, word_is_negative, functw, functf, reconst};
ghost use Rattle.g726_quant.specs.Blocks.{quan_magnitude, quan_word, quantised, subtb};
ghost use Rattle.g726_lanes.specs.Lanes.{lane, number, is_set, EachLane};

use crate::entries::{entries, small_entries};
use crate::filter::parts_of;
use crate::logs::log;
use g726_quant::Rate;
use std::simd::prelude::*;

// The word of all ones.
#[inline(always)]
fn all_ones<R: Rate>() -> u16
    ensures value { result ≡ 2 ^ R.tables.bits - 1 }
    ensures bits { (2 ≤ R.tables.bits) × (R.tables.bits ≤ 5) }
{
    (1 << R::BITS) - 1
}

// QUAN: the magnitude that is sent as if it were negative, if any.
#[inline(always)]
fn sent_inverted<R: Rate>() -> u16
    ensures { result ≡ (if nat_lt 2 R.tables.bits then 0 else 65535) }
{
    if R::BITS > 2 { 0 } else { 65535 }
}

// RECONST: the magnitudes of words.
#[inline(always)]
pub(crate) fn word_magnitude<R: Rate>(words: [u16; 8]) -> [u16; 8]
    requires { EachLane (λ k. lane words k < 2 ^ R.tables.bits) }
    ensures value { EachLane (λ k. lane result k ≡ word_magnitude R.tables.bits (lane words k)) }
    ensures bound { EachLane (λ k. lane result k < magnitudes R.tables.bits) }
{
    let words = u16x8::from_array(words);
    words
        .simd_min(u16x8::splat(all_ones::<R>()) - words)
        .to_array()
}

// RECONST: DQS, 1 for minus.
#[inline(always)]
pub(crate) fn word_is_negative<R: Rate>(words: [u16; 8]) -> [u16; 8]
    requires { EachLane (λ k. lane words k < 2 ^ R.tables.bits) }
    ensures value { EachLane (λ k. is_set (lane result k) ≡ word_is_negative R.tables.bits (lane words k)) }
    ensures bound { EachLane (λ k. lane result k < 2) }
{
    (u16x8::from_array(words) >> u16x8::splat(R::BITS as u16 - 1)).to_array()
}

// ADDA and ANTILOG: DQMAG.
#[inline(always)]
pub(crate) fn adda(levels: [u16; 8], y: [u16; 8]) -> [u16; 8]
    requires low { EachLane (λ k. negsuc 2047 ≤ℤ number levels k) }
    requires high { EachLane (λ k. number levels k ≤ℤ pos 566) }
    requires y_low { EachLane (λ k. 544 ≤ lane y k) }
    requires y_high { EachLane (λ k. lane y k ≤ 5120) }
    ensures value { EachLane (λ k. lane result k ≡ adda (number levels k) (lane y k)) }
    ensures fits { EachLane (λ k. lane result k < 4096) }
    ensures whole { EachLane (λ k. lane result k < 2048 → lane result k < 1920) }
{
    let sums = u16x8::from_array(levels) + (u16x8::from_array(y) >> u16x8::splat(2));
    (sums & u16x8::splat(4095)).to_array()
}

// QUAN: a threshold plus 2048.
#[inline(always)]
fn level_of(threshold: i16) -> u16
    requires low { negsuc 2047 ≤ℤ threshold }
    requires high { threshold ≤ℤ pos 2047 }
    ensures { pos result ≡ threshold +ℤ pos 2048 }
{
    (threshold + 2048) as u16
}

// QUAN: the number of thresholds at or below DLN, which is given plus 2048.
#[inline(always)]
pub(crate) fn quan_magnitude(thresholds: &[i16], dln: [u16; 8]) -> [u16; 8]
    requires count { length thresholds.now < 16 }
    requires low { (i : ℕ) → i < length thresholds.now
        → negsuc 2047 ≤ℤ slice_index_or thresholds.now i (pos 0) }
    requires high { (i : ℕ) → i < length thresholds.now
        → slice_index_or thresholds.now i (pos 0) ≤ℤ pos 2047 }
    ensures { EachLane (λ k. (z : ℤ) → pos (lane dln k) ≡ z +ℤ pos 2048
        → lane result k ≡ quan_magnitude thresholds.now z) }
{
    let dln = u16x8::from_array(dln);
    let mut count = u16x8::splat(0);
    for threshold in thresholds.iter() {
        let bound = u16x8::splat(level_of(*threshold));
        count = count + dln.simd_ge(bound).select(u16x8::splat(1), u16x8::splat(0));
    }
    count.to_array()
}

// QUAN: I, by the signs DS.
#[inline(always)]
pub(crate) fn quan_word<R: Rate>(negative: [u16; 8], counts: [u16; 8]) -> [u16; 8]
    requires { EachLane (λ k. lane counts k < magnitudes R.tables.bits) }
    ensures value { EachLane (λ k. lane result k
        ≡ quan_word R.tables.bits (is_set (lane negative k)) (lane counts k)) }
    ensures bound { EachLane (λ k. lane result k < 2 ^ R.tables.bits) }
{
    let counts = u16x8::from_array(counts);
    let none = sent_inverted::<R>();
    let plain = u16x8::from_array(negative)
        .simd_eq(u16x8::splat(0))
        .select(counts, u16x8::splat(none));
    plain
        .simd_eq(u16x8::splat(none))
        .select(u16x8::splat(all_ones::<R>()) - counts, counts)
        .to_array()
}

// FUNCTW: WI, in two's complement.
#[inline(always)]
pub(crate) fn functw<R: Rate>(places: [u16; 8]) -> [u16; 8]
    requires { EachLane (λ k. lane places k < magnitudes R.tables.bits) }
    ensures value { EachLane (λ k. number result k ≡ functw R.tables (lane places k)) }
    ensures low { EachLane (λ k. negsuc 21 ≤ℤ number result k) }
    ensures high { EachLane (λ k. number result k ≤ℤ pos 1122) }
{
    entries(R::multipliers(), places)
}

// FUNCTF: FI.
#[inline(always)]
pub(crate) fn functf<R: Rate>(places: [u16; 8]) -> [u16; 8]
    requires { EachLane (λ k. lane places k < magnitudes R.tables.bits) }
    ensures value { EachLane (λ k. lane result k ≡ functf R.tables (lane places k)) }
    ensures high { EachLane (λ k. lane result k ≤ 7) }
{
    small_entries(R::speed_values(), places)
}

// RECONST: DQLN, in two's complement.
#[inline(always)]
pub(crate) fn reconst<R: Rate>(places: [u16; 8]) -> [u16; 8]
    requires { EachLane (λ k. lane places k < magnitudes R.tables.bits) }
    ensures value { EachLane (λ k. number result k ≡ reconst R.tables (lane places k)) }
    ensures low { EachLane (λ k. negsuc 2047 ≤ℤ number result k) }
    ensures high { EachLane (λ k. number result k ≤ℤ pos 566) }
{
    entries(R::log_levels(), places)
}

// LOG, SUBTB and QUAN: I, by differences D and scale factors Y.
#[inline(always)]
pub(crate) fn quantise<R: Rate>(d: [u16; 8], y: [u16; 8]) -> [u16; 8]
    requires differences { EachLane (λ k. unsigned_abs (number d k) < 32768) }
    requires y { EachLane (λ k. lane y k ≤ 5120) }
    ensures value { EachLane (λ k. lane result k ≡ quantised R.tables (number d k) (lane y k)) }
    ensures bound { EachLane (λ k. lane result k < 2 ^ R.tables.bits) }
{
    let (negative, magnitudes) = parts_of(d);
    let dln = subtb(log(magnitudes), y);
    quan_word::<R>(negative, quan_magnitude(R::thresholds(), dln))
}

// SUBTB: DLN plus 2048.
#[inline(always)]
fn subtb(dl: [u16; 8], y: [u16; 8]) -> [u16; 8]
    requires dl { EachLane (λ k. lane dl k < 1920) }
    requires y { EachLane (λ k. lane y k ≤ 5120) }
    ensures { EachLane (λ k. pos (lane result k) ≡ subtb (lane dl k) (lane y k) +ℤ pos 2048) }
{
    let raised = u16x8::from_array(dl) + u16x8::splat(2048);
    (raised - (u16x8::from_array(y) >> u16x8::splat(2))).to_array()
}
