//! Whether a datagram can be kept for its repetition, by its length (`Packet`).

ghost use Rattle.std.specs.Prelude.{◌≡◌, ◌≤◌, length, true, false, IfSome, IfNone};
ghost use Rattle.gw_repeat.specs.Repetition.{has_room};

use arrayvec::ArrayVec;

// The octets of a fixed header (RFC 3550, 5.1).
const HEADER_LEN: usize = 12;

// A datagram in the queue: a fixed header, and at most 30 ms of G.711.
#[derive(Drop)]
pub(crate) struct Packet {
    pub(crate) octets: ArrayVec<u8, 252>,
    ghost whole: { 12 ≤ length octets.items },
}

impl Packet {
    // The octets of the datagram.
    pub(crate) fn as_slice(&self) -> &[u8]
        ensures value { result.now ≡ self.now.octets.items }
        ensures whole { 12 ≤ length result.now }
    {
        self.octets.as_slice()
    }

    // Copies a datagram, unless it has no fixed header or is longer than a circuit's.
    pub(crate) fn of(datagram: &[u8]) -> Option<Packet>
        ensures found { IfSome result (λ p.
            (p.octets.items ≡ datagram.now) × (has_room datagram.now ≡ true)) }
        ensures none { IfNone result (has_room datagram.now ≡ false) }
    {
        if datagram.len() < HEADER_LEN {
            return None;
        }
        let mut octets = ArrayVec::new();
        match octets.try_extend_from_slice(datagram) {
            Ok(()) => Some(Packet { octets }),
            Err(_) => None,
        }
    }
}
