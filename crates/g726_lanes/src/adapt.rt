//! The scale factors and speeds of eight circuits: blocks FILTA to FILTE, LIMA, LIMB, MIX, SUBTC and TRANS.
ghost use Rattle.std.specs.Prelude.{◌≡◌, ◌≤◌, ◌<◌, ◌+◌, ◌*◌, ◌/◌, ℕ, pos, negsuc, ◌≤ℤ◌, if◌then◌else◌, ◌&&◌};
ghost use Rattle.std.specs.Prelude.{nat_lt, false};
ghost use Rattle.g726_lanes.specs.Lanes.{lane, number, is_set, EachLane};
ghost use Rattle.g726_tone.specs.Adaptation.{limb, filtd, filta, filtb, filte, subtc, filtc, lima, mix};
ghost use Rattle.g726_tone.specs.Adaptation.{dqthr};

use std::simd::prelude::*;

// FILTD and LIMB: YU.
#[inline(always)]
pub(crate) fn fast_scale(wi: [u16; 8], y: [u16; 8]) -> [u16; 8]
    requires wi_low { EachLane (λ k. negsuc 21 ≤ℤ number wi k) }
    requires wi_high { EachLane (λ k. number wi k ≤ℤ pos 1122) }
    requires y_low { EachLane (λ k. 544 ≤ lane y k) }
    requires y_high { EachLane (λ k. lane y k ≤ 5120) }
    ensures value { EachLane (λ k. pos (lane result k) ≡ limb (filtd (number wi k) (pos (lane y k)))) }
    ensures low { EachLane (λ k. 544 ≤ lane result k) }
    ensures high { EachLane (λ k. lane result k ≤ 5120) }
{
    let y = u16x8::from_array(y);
    let yut = y - ((y + u16x8::splat(31)) >> u16x8::splat(5)) + u16x8::from_array(wi);
    yut.simd_max(u16x8::splat(544))
        .simd_min(u16x8::splat(5120))
        .to_array()
}

// FILTE: YL, which is 64 times its whole part plus its fraction.
#[inline(always)]
pub(crate) fn filte(yu: [u16; 8], whole: [u16; 8], fraction: [u16; 8]) -> ([u16; 8], [u16; 8])
    requires yu_low { EachLane (λ k. 544 ≤ lane yu k) }
    requires yu_high { EachLane (λ k. lane yu k ≤ 5120) }
    requires low { EachLane (λ k. 544 ≤ lane whole k) }
    requires high { EachLane (λ k. 64 * lane whole k + lane fraction k ≤ 327680) }
    requires fraction { EachLane (λ k. lane fraction k < 64) }
    ensures value { EachLane (λ k. pos (64 * lane result.0 k + lane result.1 k)
        ≡ filte (pos (lane yu k)) (pos (64 * lane whole k + lane fraction k))) }
    ensures low { EachLane (λ k. 544 ≤ lane result.0 k) }
    ensures high { EachLane (λ k. 64 * lane result.0 k + lane result.1 k ≤ 327680) }
    ensures whole_high { EachLane (λ k. lane result.0 k ≤ 5120) }
    ensures fraction { EachLane (λ k. lane result.1 k < 64) }
{
    let whole = u16x8::from_array(whole);
    let fraction = u16x8::from_array(fraction);
    let some = fraction.simd_min(u16x8::splat(1));
    let moved = fraction + u16x8::from_array(yu) + u16x8::splat(8192) - whole - some;
    let next = whole + (moved >> u16x8::splat(6)) - u16x8::splat(128);
    (next.to_array(), (moved & u16x8::splat(63)).to_array())
}

// FILTA: DMS.
#[inline(always)]
pub(crate) fn filta(fi: [u16; 8], dms: [u16; 8]) -> [u16; 8]
    requires fi { EachLane (λ k. lane fi k ≤ 7) }
    requires dms { EachLane (λ k. lane dms k ≤ 3584) }
    ensures value { EachLane (λ k. pos (lane result k) ≡ filta (pos (lane fi k)) (pos (lane dms k))) }
    ensures bound { EachLane (λ k. lane result k ≤ 3584) }
{
    let dms = u16x8::from_array(dms);
    let left = dms - ((dms + u16x8::splat(31)) >> u16x8::splat(5));
    (left + (u16x8::from_array(fi) << u16x8::splat(4))).to_array()
}

// FILTB: DML.
#[inline(always)]
pub(crate) fn filtb(fi: [u16; 8], dml: [u16; 8]) -> [u16; 8]
    requires fi { EachLane (λ k. lane fi k ≤ 7) }
    requires dml { EachLane (λ k. lane dml k ≤ 14336) }
    ensures value { EachLane (λ k. pos (lane result k) ≡ filtb (pos (lane fi k)) (pos (lane dml k))) }
    ensures bound { EachLane (λ k. lane result k ≤ 14336) }
{
    let dml = u16x8::from_array(dml);
    let left = dml - ((dml + u16x8::splat(127)) >> u16x8::splat(7));
    (left + (u16x8::from_array(fi) << u16x8::splat(4))).to_array()
}

// SUBTC: AX.
#[inline(always)]
pub(crate) fn subtc(y: [u16; 8], dms: [u16; 8], dml: [u16; 8], tone: [u16; 8]) -> [u16; 8]
    requires dms { EachLane (λ k. lane dms k ≤ 3584) }
    requires dml { EachLane (λ k. lane dml k ≤ 14336) }
    ensures { EachLane (λ k. is_set (lane result k) ≡ subtc (pos (lane y k)) (pos (lane dms k))
        (pos (lane dml k)) (is_set (lane tone k))) }
{
    let dml = u16x8::from_array(dml);
    let short = u16x8::from_array(dms) << u16x8::splat(2);
    let distance = short.simd_max(dml) - short.simd_min(dml);
    let far = distance
        .simd_ge(dml >> u16x8::splat(3))
        .select(u16x8::splat(1), u16x8::from_array(tone));
    u16x8::from_array(y)
        .simd_ge(u16x8::splat(1536))
        .select(far, u16x8::splat(1))
        .to_array()
}

// FILTC and TRIGA: AP.
#[inline(always)]
pub(crate) fn speed(ax: [u16; 8], tr: [u16; 8], ap: [u16; 8]) -> [u16; 8]
    requires { EachLane (λ k. lane ap k ≤ 512) }
    ensures value { EachLane (λ k. pos (lane result k) ≡ (if is_set (lane tr k) then pos 256
        else filtc (is_set (lane ax k)) (pos (lane ap k)))) }
    ensures bound { EachLane (λ k. lane result k ≤ 512) }
{
    let ap = u16x8::from_array(ap);
    let zero = u16x8::splat(0);
    let rise = u16x8::from_array(ax)
        .simd_eq(zero)
        .select(zero, u16x8::splat(32));
    let next = ap - ((ap + u16x8::splat(15)) >> u16x8::splat(4)) + rise;
    u16x8::from_array(tr)
        .simd_eq(zero)
        .select(next, u16x8::splat(256))
        .to_array()
}

// LIMA and MIX: Y.
#[inline(always)]
pub(crate) fn mix(yu: [u16; 8], whole: [u16; 8], ap: [u16; 8]) -> [u16; 8]
    requires yu_low { EachLane (λ k. 544 ≤ lane yu k) }
    requires yu_high { EachLane (λ k. lane yu k ≤ 5120) }
    requires low { EachLane (λ k. 544 ≤ lane whole k) }
    requires high { EachLane (λ k. lane whole k ≤ 5120) }
    requires ap { EachLane (λ k. lane ap k ≤ 512) }
    ensures value { EachLane (λ k. (yl : ℕ) → yl / 64 ≡ lane whole k
        → pos (lane result k) ≡ mix (pos (lane yu k)) (pos yl) (lima (pos (lane ap k)))) }
    ensures low { EachLane (λ k. 544 ≤ lane result k) }
    ensures high { EachLane (λ k. lane result k ≤ 5120) }
{
    let yu = u16x8::from_array(yu);
    let whole = u16x8::from_array(whole);
    let al = (u16x8::from_array(ap) >> u16x8::splat(2)).simd_min(u16x8::splat(64));
    let distance = yu.simd_max(whole) - yu.simd_min(whole);
    let product = (distance << u16x8::splat(3)).cast::<u32>()
        * (al << u16x8::splat(7)).cast::<u32>();
    let part = (product >> u32x8::splat(16)).cast::<u16>();
    yu.simd_lt(whole)
        .select(whole - part, whole + part)
        .to_array()
}

// TRANS: DQTHR.
#[inline(always)]
pub(crate) fn dqthr(whole: [u16; 8]) -> [u16; 8]
    requires { EachLane (λ k. lane whole k ≤ 5120) }
    ensures { EachLane (λ k. (yl : ℕ) → yl / 64 ≡ lane whole k → lane result k ≡ dqthr yl) }
{
    let whole = u16x8::from_array(whole);
    let exponents = whole >> u16x8::splat(9);
    let mantissas = ((whole >> u16x8::splat(4)) & u16x8::splat(31)) + u16x8::splat(32);
    let shifted = mantissas << exponents;
    let thr2 = exponents
        .simd_gt(u16x8::splat(9))
        .select(u16x8::splat(31744), shifted);
    ((thr2 + (thr2 >> u16x8::splat(1))) >> u16x8::splat(1)).to_array()
}

// TRANS: TR, by the tone flags, the thresholds and the magnitudes of DQ.
#[inline(always)]
pub(crate) fn trans(td: [u16; 8], thresholds: [u16; 8], magnitudes: [u16; 8]) -> [u16; 8]
    ensures { EachLane (λ k. is_set (lane result k)
        ≡ (is_set (lane td k) && nat_lt (lane thresholds k) (lane magnitudes k))) }
{
    let over = u16x8::from_array(magnitudes)
        .simd_gt(u16x8::from_array(thresholds))
        .select(u16x8::splat(1), u16x8::splat(0));
    u16x8::from_array(td)
        .simd_eq(u16x8::splat(0))
        .select(u16x8::splat(0), over)
        .to_array()
}

// TRIGA: TD, which a transition clears.
#[inline(always)]
pub(crate) fn cleared(tr: [u16; 8], tone: [u16; 8]) -> [u16; 8]
    ensures { EachLane (λ k. is_set (lane result k)
        ≡ (if is_set (lane tr k) then false else is_set (lane tone k))) }
{
    u16x8::from_array(tr)
        .simd_eq(u16x8::splat(0))
        .select(u16x8::from_array(tone), u16x8::splat(0))
        .to_array()
}
