//! The checksum Adler-32 (RFC 1950, 8.2), as octets come (`Adler`).

ghost use Rattle.std.specs.Prelude.{◌≡◌, ◌<◌, ◌%◌, ◌++◌, ℕ, List, []};
ghost use Rattle.log_files.specs.Adler.{Sums, sum_of, sums_of};

use std::marker::Model;

// The greatest prime below 65536.
const BASE: u32 = 65_521;

// The sums of Adler-32 over the octets so far.
#[derive(Drop)]
pub(crate) struct Adler {
    s1: u32,
    s2: u32,
}

impl Model for Adler {
    ghost Value = { Sums };

    ghost view = { λ a. record { s1 = a.s1; s2 = a.s2 } };

    ghost invariant = { λ a. (a.s1 < 65521) × (a.s2 < 65521) };
}

// A sum of two numbers of which one is below the base, and the other one no more, modulo the base.
fn reduced(sum: u32) -> u32
    requires { sum < 131042 }
    ensures { result ≡ sum % 65521 }
{
    if sum < BASE { sum } else { sum - BASE }
}

impl Adler {
    // Of no octet.
    #[tactic(auto, unfolding(crate::specs::Adler::sums_of))]
    pub(crate) fn new() -> Adler
        ensures { result ≡ sums_of [] }
    {
        Adler { s1: 1, s2: 0 }
    }

    // Takes octets behind those so far.
    pub(crate) fn add(&mut self, octets: &[u8])
        ensures { (before : List ℕ) → self.old ≡ sums_of before → self.new ≡ sums_of (before ++ octets.now) }
    {
        for octet in octets {
            self.s1 = reduced(self.s1 + u32::from(*octet));
            self.s2 = reduced(self.s2 + self.s1);
        }
    }

    // The checksum of the octets so far.
    pub(crate) fn sum(&self) -> u32
        ensures { result ≡ sum_of self.now }
    {
        self.s2 * 65_536 + self.s1
    }
}
