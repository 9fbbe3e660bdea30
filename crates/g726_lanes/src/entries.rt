//! The entries of tables at the places of eight lanes.
ghost use Rattle.std.specs.Prelude.{◌≡◌, ◌<◌, ◌≤◌, ◌+◌, ◌%◌, nat_lt, if◌then◌else◌, pos, length};
ghost use Rattle.std.specs.Prelude.{slice_index_or};
ghost use Rattle.std.specs.Int.{cast_signed, w16};
ghost use Rattle.g726_lanes.specs.Lanes.{lane, number, EachLane};

use crate::lane::bits_of;
use std::simd::prelude::*;

// How many entries a vector has.
const LANES: usize = 8;

// The entry of a table at a place, in two's complement; 0 behind its end.
#[inline(always)]
fn entry(table: &[i16], place: usize) -> u16
    ensures { cast_signed w16 result ≡ slice_index_or table.now place (pos 0) }
{
    match table.get(place) {
        Some(entry) => bits_of(*entry),
        None => 0,
    }
}

// The eight entries of a table from a place on.
#[inline(always)]
#[tactic(auto, using(crate::proofs::Each::each_lane))]
fn eight_entries(table: &[i16], from: usize) -> [u16; 8]
    requires { from ≤ 8 }
    ensures { EachLane (λ k. number result k ≡ slice_index_or table.now (from + k) (pos 0)) }
{
    [
        entry(table, from),
        entry(table, from + 1),
        entry(table, from + 2),
        entry(table, from + 3),
        entry(table, from + 4),
        entry(table, from + 5),
        entry(table, from + 6),
        entry(table, from + 7),
    ]
}

// The entry of a table of octets at a place; 0 behind its end.
#[inline(always)]
fn small_entry(table: &[u8], place: usize) -> u16
    ensures { result ≡ slice_index_or table.now place 0 }
{
    match table.get(place) {
        Some(entry) => u16::from(*entry),
        None => 0,
    }
}

// The eight entries of a table of octets from a place on.
#[inline(always)]
#[tactic(auto, using(crate::proofs::Each::each_lane))]
fn eight_small_entries(table: &[u8], from: usize) -> [u16; 8]
    requires { from ≤ 8 }
    ensures { EachLane (λ k. lane result k ≡ slice_index_or table.now (from + k) 0) }
{
    [
        small_entry(table, from),
        small_entry(table, from + 1),
        small_entry(table, from + 2),
        small_entry(table, from + 3),
        small_entry(table, from + 4),
        small_entry(table, from + 5),
        small_entry(table, from + 6),
        small_entry(table, from + 7),
    ]
}

// The numbers of a vector at places below 8.
#[inline(always)]
fn picked(numbers: [u16; 8], places: [u16; 8]) -> [u16; 8]
    requires { EachLane (λ k. lane places k < 8) }
    ensures { EachLane (λ k. lane result k ≡ lane numbers (lane places k)) }
{
    u16x8::from_array(numbers)
        .swizzle_dyn(u16x8::from_array(places))
        .to_array()
}

// Places in the half of a table that they are in.
#[inline(always)]
fn half_places(places: [u16; 8]) -> [u16; 8]
    ensures { EachLane (λ k. lane result k ≡ lane places k % 8) }
{
    (u16x8::from_array(places) & u16x8::splat(7)).to_array()
}

// The numbers of the half of a table that each place is in.
#[inline(always)]
fn half_of(places: [u16; 8], first: [u16; 8], second: [u16; 8]) -> [u16; 8]
    ensures { EachLane (λ k. lane result k
        ≡ (if nat_lt (lane places k) 8 then lane first k else lane second k)) }
{
    u16x8::from_array(places)
        .simd_lt(u16x8::splat(8))
        .select(u16x8::from_array(first), u16x8::from_array(second))
        .to_array()
}

// The entries of a table at the places of eight lanes, in two's complement.
#[inline(always)]
pub(crate) fn entries(table: &[i16], places: [u16; 8]) -> [u16; 8]
    requires few { length table.now ≤ 16 }
    requires places { EachLane (λ k. lane places k < length table.now) }
    ensures { EachLane (λ k. number result k ≡ slice_index_or table.now (lane places k) (pos 0)) }
{
    let within = half_places(places);
    let first = picked(eight_entries(table, 0), within);
    if table.len() <= LANES {
        return first;
    }
    half_of(places, first, picked(eight_entries(table, LANES), within))
}

// The entries of a table of octets at the places of eight lanes.
#[inline(always)]
pub(crate) fn small_entries(table: &[u8], places: [u16; 8]) -> [u16; 8]
    requires few { length table.now ≤ 16 }
    requires places { EachLane (λ k. lane places k < length table.now) }
    ensures { EachLane (λ k. lane result k ≡ slice_index_or table.now (lane places k) 0) }
{
    let within = half_places(places);
    let first = picked(eight_small_entries(table, 0), within);
    if table.len() <= LANES {
        return first;
    }
    half_of(
        places,
        first,
        picked(eight_small_entries(table, LANES), within),
    )
}
