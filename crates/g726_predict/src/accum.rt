//! The signal estimates SEZ and SE, and P: blocks ACCUM and ADDC of ITU-T G.726.
ghost use Rattle.std.specs.Prelude.{◌≡◌, ◌<◌, ◌+ℤ◌, take, drop, map, FitsSigned};
ghost use Rattle.std.specs.Int.{int_shr, cast_unsigned, w16};
ghost use Rattle.std.specs.Simd.Lanes.{Each1};
ghost use Rattle.g726_quant.specs.Arithmetic.{signed, wrap16};
ghost use Rattle.g726_predict.specs.Predictor.{sum_of_products};
ghost use Rattle.g726_predict.specs.Words.{unpacked};

use crate::float::fmult;
use g726_quant::{Dq, wrap16};
use std::simd::prelude::*;

// Eight numbers in two's complement.
fn bits_of(numbers: [i16; 8]) -> u16x8
    requires { Each1 (FitsSigned w16) numbers }
    ensures { result ≡ map (cast_unsigned w16) numbers }
{
    u16x8::from_array([
        numbers[0].cast_unsigned(),
        numbers[1].cast_unsigned(),
        numbers[2].cast_unsigned(),
        numbers[3].cast_unsigned(),
        numbers[4].cast_unsigned(),
        numbers[5].cast_unsigned(),
        numbers[6].cast_unsigned(),
        numbers[7].cast_unsigned(),
    ])
}

// ACCUM: SEZ and SE, the signal estimates.
//
// They come from B1 to B6, A1 and A2 and the words of DQ1 to DQ6, SR1 and SR2. All sums have 16 bits, so SEZ
// is the sum of all products without the two of the poles.
pub(crate) fn estimates(coefficients: [i16; 8], words: [u16; 8]) -> (i16, i16)
    requires coefficients { Each1 (FitsSigned w16) coefficients }
    requires words { Each1 (λ w. w < 2048) words }
    ensures zeros { result.0
        ≡ int_shr (wrap16 (sum_of_products (take 6 coefficients) (map unpacked (take 6 words)))) 1 }
    ensures all { result.1 ≡ int_shr (wrap16 (sum_of_products (take 6 coefficients)
        (map unpacked (take 6 words)) +ℤ sum_of_products (drop 6 coefficients)
        (map unpacked (drop 6 words)))) 1 }
{
    let products = fmult(bits_of(coefficients), u16x8::from_array(words));
    let lanes = products.to_array();
    let all = products.reduce_sum();
    let zeros = all.wrapping_sub(lanes[6]).wrapping_sub(lanes[7]);
    (zeros.cast_signed() >> 1, all.cast_signed() >> 1)
}

// ADDC: P, the sum of DQ and SEZ.
pub(crate) fn addc(dq: Dq, sez: i16) -> i16
    ensures { result ≡ wrap16 (signed dq.negative dq.mag +ℤ sez) }
{
    wrap16(dq.signed() + sez as i32)
}
