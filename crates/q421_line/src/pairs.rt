//! Bits a and b of one direction, from and to a nibble (`Pair`).

ghost use Rattle.std.specs.Prelude.{◌≡◌, ◌<◌};
ghost use Rattle.q421_line.specs.Recognition.{pair_of};
ghost use Rattle.q421_line.specs.Tables.{sent_nibble};

use g704_cas::Nibble;
use std::marker::Model;

// The number of values of bits c and d together.
const C_D_VALUES: u8 = 4;

// Bits c and d as sent: 0 and 1 (ITU-T Q.421).
const SENT_C_D: u8 = 0b01;

/// Bits a and b of a circuit in one direction (ITU-T Q.421).
///
/// Contracts see the number 2a + b, 0 to 3.
#[derive(Clone, Copy, Debug, PartialEq, Eq)]
pub struct Pair {
    bits: u8,
}

impl Model for Pair {
    ghost use Rattle.std.specs.Prelude.{ℕ, ◌<◌};

    ghost Value = { ℕ };

    ghost view = { λ p. p.bits };

    ghost invariant = { λ p. p.bits < 4 };

    ghost inverse = { λ n. record { bits = n } };
}

impl Pair {
    /// The pair of a nibble ABCD; bits c and d are ignored.
    pub fn of(nibble: Nibble) -> Self
        ensures { result ≡ pair_of nibble }
    {
        Pair {
            bits: nibble.get() / C_D_VALUES,
        }
    }

    /// The number 2a + b, 0 to 3.
    pub fn get(self) -> u8
        ensures value { result ≡ self }
        ensures range { self < 4 }
    {
        self.bits
    }

    // Bits a and b by their number, 2a + b.
    pub(crate) fn of_bits(bits: u8) -> Self
        requires { bits < 4 }
        ensures { result ≡ bits }
    {
        Pair { bits }
    }

    // The nibble to send for the pair.
    pub(crate) fn nibble(self) -> Nibble
        ensures value { result ≡ sent_nibble self }
        ensures in_range { result < 16 }
    {
        Nibble::new(C_D_VALUES * self.bits + SENT_C_D).unwrap()
    }
}
