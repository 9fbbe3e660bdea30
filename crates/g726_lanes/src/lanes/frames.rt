//! Octets and words of eight circuits, a row of each, coded in place one from each row at once.

ghost use Rattle.std.specs.Prelude.{◌≡◌, ◌<◌, ◌≤◌, ◌^◌, take, length, slice_index, slice_set};
ghost use Rattle.std.specs.List.{All};
ghost use Rattle.g726_codec.specs.Codec.{words_from, octets_from, state_after};
ghost use Rattle.g726_lanes.specs.Lanes.{lane, row_at, EachLane};
ghost use Rattle.g726_lanes.specs.States.{variables};

use crate::lanes::Lanes;
use e1_g711::Law;
use g726_quant::Rate;
use std::simd::prelude::*;

// Numbers of sixteen bits that have eight.
#[inline(always)]
fn narrowed(words: [u16; 8]) -> [u8; 8]
    requires { EachLane (λ k. lane words k < 256) }
    ensures { EachLane (λ k. lane result k ≡ lane words k) }
{
    u16x8::from_array(words).cast::<u8>().to_array()
}

// The same numbers with sixteen bits.
#[inline(always)]
fn widened(words: [u8; 8]) -> [u16; 8]
    ensures { EachLane (λ k. lane result k ≡ lane words k) }
{
    u8x8::from_array(words).cast::<u16>().to_array()
}

// The number at a place of a row.
#[inline(always)]
fn number_at(numbers: &[u8; 32], i: usize) -> u8
    requires { i < 32 }
    ensures value { result ≡ slice_index numbers.now i }
    ensures within { i < length numbers.now }
{
    numbers[i]
}

// The number at this place of each row.
#[inline(always)]
#[tactic(auto, using(crate::proofs::Each::each_lane))]
fn frame_of(rows: &[[u8; 32]; 8], i: usize) -> [u8; 8]
    requires { i < 32 }
    ensures value { EachLane (λ k. lane result k ≡ slice_index (row_at rows.now k) i) }
    ensures within { EachLane (λ k. i < length (row_at rows.now k)) }
{
    [
        number_at(&rows[0], i),
        number_at(&rows[1], i),
        number_at(&rows[2], i),
        number_at(&rows[3], i),
        number_at(&rows[4], i),
        number_at(&rows[5], i),
        number_at(&rows[6], i),
        number_at(&rows[7], i),
    ]
}

// Puts a number at a place of a row.
#[inline(always)]
fn put_number(numbers: &mut [u8; 32], i: usize, number: u8)
    requires { i < 32 }
    ensures { numbers.new ≡ slice_set numbers.old i number }
{
    numbers[i] = number;
}

// Puts a number at this place of each row.
#[inline(always)]
fn put_frame(rows: &mut [[u8; 32]; 8], i: usize, frame: [u8; 8])
    requires { i < 32 }
    ensures { EachLane (λ k. row_at rows.new k ≡ slice_set (row_at rows.old k) i (lane frame k)) }
{
    for k in 0..8 {
        put_number(&mut rows[k], i, frame[k]);
    }
}

impl Lanes {
    /// Replaces this many octets of each row, codes of a law, by their words.
    ///
    /// A circuit's words, and its state behind them, are those that `g726_codec::Encoder::encode` gives for
    /// its octets.
    pub fn encode_rows<R: Rate>(&mut self, law: Law, rows: &mut [[u8; 32]; 8], count: usize)
        requires { count ≤ 32 }
        ensures fit { EachLane (λ k. All (λ word. word < 2 ^ R.tables.bits)
            (take count (row_at rows.new k))) }
        ensures words { EachLane (λ k. take count (row_at rows.new k)
            ≡ words_from R.tables law (variables self.old k) (take count (row_at rows.old k))) }
        ensures state { EachLane (λ k. variables self.new k
            ≡ state_after R.tables (variables self.old k) (take count (row_at rows.new k))) }
    {
        for i in 0..count {
            let words = self.encode::<R>(law, frame_of(rows, i));
            put_frame(rows, i, narrowed(words));
        }
    }

    /// Replaces this many words of each row, numbers below `2^bits`, by their octets in a law.
    ///
    /// A circuit's octets, and its state behind them, are those that `g726_codec::Decoder::decode` gives for
    /// its words.
    pub fn decode_rows<R: Rate>(&mut self, law: Law, rows: &mut [[u8; 32]; 8], count: usize)
        requires few { count ≤ 32 }
        requires fit { EachLane (λ k. All (λ word. word < 2 ^ R.tables.bits)
            (take count (row_at rows.old k))) }
        ensures octets { EachLane (λ k. take count (row_at rows.new k)
            ≡ octets_from R.tables law (variables self.old k) (take count (row_at rows.old k))) }
        ensures state { EachLane (λ k. variables self.new k
            ≡ state_after R.tables (variables self.old k) (take count (row_at rows.old k))) }
    {
        for i in 0..count {
            let octets = self.decode::<R>(law, widened(frame_of(rows, i)));
            put_frame(rows, i, octets);
        }
    }
}
