//! The octets that replace a missing SAToP packet: the multiframe before it again, or ones.

ghost use Rattle.std.specs.Prelude.{◌≡◌, ◌≤◌, ℕ, List, length, min, slice_index};
ghost use Rattle.circular_buffer.specs.Buffer.{keep_last};
ghost use Rattle.satop_playout.specs.Replacement.{again, fill_of};

use crate::Replacement;
use circular_buffer::HeapCircularBuffer;

/// The octets of a signalling multiframe (ITU-T G.704, 5.1.3.2).
pub(crate) const MULTIFRAME: usize = 512;

// The most octets in a row that are repeated: 8 ms.
pub(crate) const MOST_REPEATED: usize = 2048;

// Fills a packet, after the last multiframe of octets given, of which this many in a row were filled.
pub(crate) fn replace(
    fill: Replacement,
    given: &HeapCircularBuffer<u8>,
    filled: usize,
    room: &mut [u8],
)
    requires { length room.old ≤ 1280 }
    ensures { (all : List ℕ) (count : ℕ) → given.now.items ≡ keep_last 512 all → filled ≡ min count 2048
        → room.new ≡ fill_of fill (length room.old) all count }
{
    let is_repeated = fill == Replacement::Again
        && given.len() >= MULTIFRAME
        && filled.saturating_add(room.len()) <= MOST_REPEATED;
    if is_repeated {
        repeat(given, room);
    } else {
        room.fill(0xFF);
    }
}

// Fills the room with the octets of the multiframe before it.
fn repeat(given: &HeapCircularBuffer<u8>, room: &mut [u8])
    ensures { (all : List ℕ) → given.now.items ≡ keep_last 512 all → 512 ≤ length given.now.items
        → room.new ≡ again (length room.old) all }
{
    for i in 0..room.len() {
        room[i] = octet_at(given, i % MULTIFRAME);
    }
}

// The octet at a place, or 0 behind the last one.
fn octet_at(octets: &HeapCircularBuffer<u8>, place: usize) -> u8
    ensures { result ≡ slice_index octets.now.items place }
{
    match octets.get(place) {
        Some(octet) => *octet,
        None => 0,
    }
}
