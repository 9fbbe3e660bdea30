//! The CRC-4 check bits C1 to C4 of octets: the remainder by x^4+x+1, octet by octet (`Remainder`).

ghost use Rattle.std.specs.Prelude.{◌≡◌, ◌≤◌, ◌<◌, ℕ, Bool};
ghost use Rattle.g704_crc4.specs.declared.remainder.Remainder.{Remainder};
ghost use Rattle.g704_crc4.specs.Remainder.{add, after_octet, after_all, crc_number};
ghost use Rattle.g704_crc4.specs.Multiframe.{check_bit};

use crate::table::REMAINDERS;

/// The check bits C1 to C4: the remainder of a polynomial times x^4 by x^4+x+1.
#[derive(Clone, Copy, Debug, PartialEq, Eq)]
pub struct Remainder {
    /// The coefficient of x^3, sent first.
    pub c1: bool,
    /// The coefficient of x^2.
    pub c2: bool,
    /// The coefficient of x.
    pub c3: bool,
    /// The coefficient of 1, sent last.
    pub c4: bool,
}

// The remainder of no bits.
pub(crate) const NO_REMAINDER: Remainder = Remainder {
    c1: false,
    c2: false,
    c3: false,
    c4: false,
};

// The remainder after the bits of one more octet, both as numbers.
pub(crate) fn number_after(left: u8, octet: u8) -> u8
    ensures { (remainder : Remainder) → left ≡ crc_number remainder
        → result ≡ crc_number (after_octet remainder octet) }
{
    REMAINDERS[usize::from((left << 4) ^ octet)]
}

// The remainder after the bits of more octets, both as numbers.
pub(crate) fn number_after_all(left: u8, octets: &[u8]) -> u8
    ensures { (remainder : Remainder) → left ≡ crc_number remainder
        → result ≡ crc_number (after_all remainder octets.now) }
{
    let mut now = left;
    for octet in octets {
        now = number_after(now, *octet);
    }
    now
}

// The sum of two coefficients, modulo 2.
pub(crate) fn add(a: bool, b: bool) -> bool
    ensures { result ≡ add a b }
{
    if a { !b } else { b }
}

// The check bits C1 to C4 with this number.
pub(crate) fn of_number(number: u8) -> Remainder
    ensures { (bits : Remainder) → number ≡ crc_number bits → result ≡ bits }
{
    Remainder {
        c1: check_bit(number, 0),
        c2: check_bit(number, 1),
        c3: check_bit(number, 2),
        c4: check_bit(number, 3),
    }
}

// The check bit at a place, 0 for C1, of a remainder's number.
pub(crate) fn check_bit(number: u8, place: u16) -> bool
    ensures { (bits : Remainder) → number ≡ crc_number bits → result ≡ check_bit bits place }
{
    match place {
        0 => number / 8 % 2 == 1,
        1 => number / 4 % 2 == 1,
        2 => number / 2 % 2 == 1,
        3 => number % 2 == 1,
        _ => false,
    }
}
