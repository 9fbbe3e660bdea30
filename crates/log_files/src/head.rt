//! The head of an area, as octets (`head_of`, `head_in`).

ghost use Rattle.std.specs.Prelude.{◌≡◌, ◌<◌, ◌≤◌, ◌^◌, ℕ, IfSome, IfNone, length};
ghost use Rattle.log_files.specs.Adler.{adler};
ghost use Rattle.log_files.specs.Area.{HasHead, head, head_of};

use crate::adler::Adler;
use byteorder::{BigEndian, ByteOrder};

/// The octets of a head.
pub const HEAD_LEN: usize = 24;

// What a head says: a turn, and how many octets are behind it, with their checksum.
#[derive(Clone, Copy, Debug, PartialEq, Eq)]
pub(crate) struct Head {
    pub(crate) turn: u64,
    pub(crate) len: u32,
    pub(crate) sum: u32,
}

// The checksum of octets.
pub(crate) fn adler_of(octets: &[u8]) -> u32
    ensures { result ≡ adler octets.now }
{
    let mut sums = Adler::new();
    sums.add(octets);
    sums.sum()
}

// The octets of a head.
#[tactic(auto, unfolding(crate::specs::Area::head_of))]
pub(crate) fn head_of(head: Head) -> [u8; HEAD_LEN]
    ensures { result ≡ head_of head.turn head.len head.sum }
{
    let mut octets = [0; HEAD_LEN];
    octets[..4].copy_from_slice(&[0x45, 0x31, 0x47, 0x4C]);
    BigEndian::write_u64(&mut octets[4..], head.turn);
    BigEndian::write_u32(&mut octets[12..], head.len);
    BigEndian::write_u32(&mut octets[16..], head.sum);
    let sum = adler_of(&octets[..20]);
    BigEndian::write_u32(&mut octets[20..], sum);
    octets
}

// The head of octets that are written in this turn.
pub(crate) fn head_over(turn: u64, octets: &[u8]) -> [u8; HEAD_LEN]
    requires { length octets.now < 2 ^ 32 }
    ensures { result ≡ head turn octets.now }
{
    head_of(Head {
        turn,
        len: octets.len() as u32,
        sum: adler_of(octets),
    })
}

// How many octets are behind a head, as it says; 0 if the octets are no head.
pub(crate) fn len_behind(content: &[u8]) -> u32
    ensures some { (turn len sum : ℕ) → HasHead content.now turn len sum → result ≡ len }
    ensures none { ((turn len sum : ℕ) → ¬ HasHead content.now turn len sum) → result ≡ 0 }
{
    match head_in(content) {
        Some(head) => head.len,
        None => 0,
    }
}

// What the first octets say, if they are a head.
pub(crate) fn head_in(content: &[u8]) -> Option<Head>
    ensures some { IfSome result (λ head. HasHead content.now head.turn head.len head.sum) }
    ensures long { IfSome result (λ _. 24 ≤ length content.now) }
    ensures none { IfNone result ((turn len sum : ℕ) → ¬ HasHead content.now turn len sum) }
{
    if content.len() < HEAD_LEN {
        return None;
    }
    let head = Head {
        turn: BigEndian::read_u64(&content[4..12]),
        len: BigEndian::read_u32(&content[12..16]),
        sum: BigEndian::read_u32(&content[16..20]),
    };
    let octets = head_of(head);
    if content[..HEAD_LEN] == octets[..] {
        Some(head)
    } else {
        None
    }
}
