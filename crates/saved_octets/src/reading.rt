//! Numbers and flags read from the octets of a saved state (`OctetReader`).

ghost use Rattle.std.specs.Prelude.{◌≡◌, ◌++◌, ◌∷◌, ◌^◌, ◌<◌, ℕ, Bool, ◌==◌, List, length, IfSome, IfNone};
ghost use Rattle.std.specs.Prelude.{Some, All, flat_map};
ghost use Rattle.std.specs.Prelude.{option_map};
ghost use Rattle.saved_octets.specs.Numbers.{flag_octet, two_octets, four_octets};

use byteorder::{BigEndian, ByteOrder};
use std::marker::Model;

/// The octets not yet read.
///
/// Contracts see the list of them.
#[derive(Debug, Drop)]
pub struct OctetReader<'a> {
    left: &'a [u8],
}

impl<'a> Model for OctetReader<'a> {
    ghost use Rattle.std.specs.Prelude.{List, ℕ};

    ghost Value = { List ℕ };

    ghost view = { λ o. o.left.now };
}

impl<'a> OctetReader<'a> {
    /// A reader at the first of these octets.
    pub fn new(octets: &'a [u8]) -> Self
        ensures { result ≡ octets.now }
    {
        OctetReader { left: octets }
    }

    /// Whether all octets have been read.
    pub fn is_empty(&self) -> bool
        ensures { result ≡ (length self.now == 0) }
    {
        self.left.is_empty()
    }

    /// Reads one octet as a number; None if no octet is left.
    pub fn read_u8(&mut self) -> Option<u8>
        ensures next { (n : ℕ) (rest : List ℕ) → self.old ≡ n ∷ rest
            → (result ≡ Some n) × (self.new ≡ rest) }
        ensures read { IfSome result (λ n. self.old ≡ n ∷ self.new) }
        ensures none { IfNone result (self.new ≡ self.old) }
    {
        let (first, others) = self.left.split_first()?;
        self.left = others;
        Some(*first)
    }

    /// Reads a 16-bit number; None if fewer octets are left.
    pub fn read_u16(&mut self) -> Option<u16>
        ensures next { (n : ℕ) (rest : List ℕ) → n < 2 ^ 16 → self.old ≡ two_octets n ++ rest
            → (result ≡ Some n) × (self.new ≡ rest) }
        ensures read { IfSome result (λ n. self.old ≡ two_octets n ++ self.new) }
        ensures none { IfNone result (self.new ≡ self.old) }
    {
        let [a, b, others @ ..] = self.left else {
            return None;
        };
        self.left = others;
        Some(BigEndian::read_u16(&[*a, *b]))
    }

    /// Reads a 32-bit number; None if fewer octets are left.
    pub fn read_u32(&mut self) -> Option<u32>
        ensures next { (n : ℕ) (rest : List ℕ) → n < 2 ^ 32 → self.old ≡ four_octets n ++ rest
            → (result ≡ Some n) × (self.new ≡ rest) }
        ensures read { IfSome result (λ n. self.old ≡ four_octets n ++ self.new) }
        ensures none { IfNone result (self.new ≡ self.old) }
    {
        let [a, b, c, d, others @ ..] = self.left else {
            return None;
        };
        self.left = others;
        Some(BigEndian::read_u32(&[*a, *b, *c, *d]))
    }

    /// Reads as many octets; None if fewer are left.
    pub fn read_slice(&mut self, count: usize) -> Option<&'a [u8]>
        ensures next { (taken rest : List ℕ) → length taken ≡ count → self.old ≡ taken ++ rest
            → (option_map (λ s. s.now) result ≡ Some taken) × (self.new ≡ rest) }
        ensures read { IfSome result (λ taken. self.old ≡ taken.now ++ self.new) }
        ensures len { IfSome result (λ taken. length taken.now ≡ count) }
        ensures none { IfNone result (self.new ≡ self.old) }
    {
        let (taken, others) = self.left.split_at_checked(count)?;
        self.left = others;
        Some(taken)
    }

    /// Fills a slice with 16-bit numbers; None if too few octets are left.
    pub fn read_u16_into(&mut self, numbers: &mut [u16]) -> Option<()>
        ensures next { (saved rest : List ℕ) → length saved ≡ length numbers.old → All (λ n. n < 2 ^ 16) saved
            → self.old ≡ flat_map two_octets saved ++ rest
            → (result ≡ Some tt) × (numbers.new ≡ saved) × (self.new ≡ rest) }
        ensures read { IfSome result (λ done. self.old ≡ flat_map two_octets numbers.new ++ self.new) }
        ensures len { length numbers.new ≡ length numbers.old }
    {
        for i in 0..numbers.len() {
            numbers[i] = self.read_u16()?;
        }
        Some(())
    }

    /// Reads a flag; None if the next octet is neither 0 nor 1, or missing.
    pub fn read_bool(&mut self) -> Option<bool>
        ensures next { (flag : Bool) (rest : List ℕ) → self.old ≡ flag_octet flag ∷ rest
            → (result ≡ Some flag) × (self.new ≡ rest) }
        ensures read { IfSome result (λ flag. self.old ≡ flag_octet flag ∷ self.new) }
    {
        match self.read_u8()? {
            0 => Some(false),
            1 => Some(true),
            _ => None,
        }
    }
}
