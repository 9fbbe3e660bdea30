//! The predictors of eight circuits: blocks ACCUM, ADDC, UPB, TRIGB and TONE of ITU-T G.726.
ghost use Rattle.std.specs.Prelude.{◌≡◌, ◌<◌, ◌%◌, ◌+ℤ◌, negsuc, unsigned_abs};
ghost use Rattle.std.specs.Int.{int_shr};
ghost use Rattle.std.specs.Int.RustNames.{int_lt};
ghost use Rattle.g726_quant.specs.Arithmetic.{signed, wrap16};
ghost use Rattle.g726_predict.specs.Coefficients.{updated_b};
ghost use Rattle.g726_predict.specs.Float.{fmult};
ghost use Rattle.g726_predict.specs.Predictor.{trigb};
ghost use Rattle.g726_predict.specs.Words.{unpacked};
ghost use Rattle.g726_lanes.specs.Lanes.{lane, number, minus, is_set, EachLane};

use g726_predict::float::fmult;
use g726_quant::{Rate, leak};
use std::simd::prelude::*;

// ACCUM: sums with the products of coefficients and words.
#[inline(always)]
pub(crate) fn accumulate(sums: [u16; 8], coefficients: [u16; 8], words: [u16; 8]) -> [u16; 8]
    requires { EachLane (λ k. lane words k < 2048) }
    ensures { EachLane (λ k. number result k
        ≡ wrap16 (number sums k +ℤ fmult (number coefficients k) (unpacked (lane words k)))) }
{
    let products = fmult(u16x8::from_array(coefficients), u16x8::from_array(words));
    (u16x8::from_array(sums) + products).to_array()
}

// ACCUM: half of each sum.
#[inline(always)]
pub(crate) fn halved(sums: [u16; 8]) -> [u16; 8]
    ensures { EachLane (λ k. number result k ≡ int_shr (number sums k) 1) }
{
    let raised = u16x8::from_array(sums) + u16x8::splat(32768);
    ((raised >> u16x8::splat(1)) - u16x8::splat(16384)).to_array()
}

// UPB and TRIGB: a coefficient, by its word, the magnitude and the sign of DQ, and TR.
#[inline(always)]
pub(crate) fn update_b<R: Rate>(
    b: [u16; 8],
    words: [u16; 8],
    magnitudes: [u16; 8],
    negative: [u16; 8],
    tr: [u16; 8],
) -> [u16; 8]
    requires words { EachLane (λ k. lane words k < 2048) }
    requires signs { EachLane (λ k. lane negative k < 2) }
    ensures { EachLane (λ k. number result k ≡ trigb (is_set (lane tr k)) (updated_b R.tables.leak
        (number b k) (lane magnitudes k) (is_set (lane negative k)) (unpacked (lane words k)).negative)) }
{
    let shift = leak::<R>() as u16;
    let b = u16x8::from_array(b);
    let part = (b + u16x8::splat(32768)) >> u16x8::splat(shift);
    let bias = u16x8::splat(32768 >> shift);
    let unit = u16x8::from_array(magnitudes).simd_min(u16x8::splat(1)) << u16x8::splat(7);
    let signs = u16x8::from_array(words) >> u16x8::splat(10);
    let change = signs
        .simd_eq(u16x8::from_array(negative))
        .select(bias + unit, bias - unit);
    u16x8::from_array(tr)
        .simd_eq(u16x8::splat(0))
        .select(b - part + change, u16x8::splat(0))
        .to_array()
}

// ADDC: P, by the signs and the magnitudes of DQ, and SEZ.
#[inline(always)]
pub(crate) fn addc(negative: [u16; 8], magnitudes: [u16; 8], zeros: [u16; 8]) -> [u16; 8]
    requires { EachLane (λ k. lane magnitudes k < 32768) }
    ensures { EachLane (λ k. number result k
        ≡ wrap16 (signed (is_set (lane negative k)) (lane magnitudes k) +ℤ number zeros k)) }
{
    let magnitudes = u16x8::from_array(magnitudes);
    let dq = u16x8::from_array(negative)
        .simd_eq(u16x8::splat(0))
        .select(magnitudes, magnitudes.wrapping_neg());
    (dq + u16x8::from_array(zeros)).to_array()
}

// TRIGB: numbers, cleared by transitions.
#[inline(always)]
pub(crate) fn trigb(tr: [u16; 8], numbers: [u16; 8]) -> [u16; 8]
    ensures { EachLane (λ k. number result k ≡ trigb (is_set (lane tr k)) (number numbers k)) }
{
    u16x8::from_array(tr)
        .simd_eq(u16x8::splat(0))
        .select(u16x8::from_array(numbers), u16x8::splat(0))
        .to_array()
}

// TONE: the flag, by the new A2.
#[inline(always)]
pub(crate) fn tones(a2: [u16; 8]) -> [u16; 8]
    ensures { EachLane (λ k. is_set (lane result k) ≡ int_lt (number a2 k) (negsuc 11775)) }
{
    (u16x8::from_array(a2) + u16x8::splat(32768))
        .simd_lt(u16x8::splat(20992))
        .select(u16x8::splat(1), u16x8::splat(0))
        .to_array()
}

// FLOATB: the signs and the 15-bit magnitudes of SR.
#[inline(always)]
pub(crate) fn parts_of(signals: [u16; 8]) -> ([u16; 8], [u16; 8])
    ensures signs { EachLane (λ k. is_set (lane result.0 k) ≡ minus signals k) }
    ensures magnitudes { EachLane (λ k. lane result.1 k ≡ unsigned_abs (number signals k) % 32768) }
    ensures sign_bound { EachLane (λ k. lane result.0 k < 2) }
    ensures magnitude_bound { EachLane (λ k. lane result.1 k < 32768) }
{
    let signals = u16x8::from_array(signals);
    let signs = signals >> u16x8::splat(15);
    let magnitudes = signs
        .simd_eq(u16x8::splat(0))
        .select(signals, signals.wrapping_neg());
    (
        signs.to_array(),
        (magnitudes & u16x8::splat(32767)).to_array(),
    )
}
