//! The adaptation saved as octets, and loaded from them.

ghost use Rattle.std.specs.Prelude.{◌≡◌, ◌++◌, ◌<◌, ◌≤◌, ◌^◌, ◌≤ℤ◌, ℕ, ℤ, unsigned_abs, List, OnOk, IfSome};
ghost use Rattle.std.specs.Prelude.{Some, pos};
ghost use Rattle.saved_octets.specs.Numbers.{two_octets, four_octets};
ghost use Rattle.g726_tone.specs.Adaptation.{Adaptation, InRange};
ghost use Rattle.g726_tone.specs.Saved.{saved_adaptation, saved_scales, saved_speeds, AreScales, AreSpeeds};

use crate::adapt::Adapt;
use crate::scale::{lima, mix};
use saved_octets::{OctetReader, append_bool, append_u16, append_u32};
use std::alloc::AllocError;

impl Adapt {
    /// Appends the octets of the variables.
    #[tactic(auto, unfolding(crate::specs::Saved::saved_adaptation))]
    pub fn save(&self, out: &mut Vec<u8>) -> Result<(), AllocError>
        ensures octets { OnOk result (out.new.items ≡ out.old.items ++ saved_adaptation self.now) }
        ensures in_range { InRange self.now }
    {
        save_scales(self.yu, self.yl, out)?;
        save_speeds(self.dms, self.dml, self.ap, out)?;
        append_bool(out, self.td)
    }

    /// Loads a saved adaptation.
    ///
    /// None if the octets are not one, as with a variable out of range.
    #[tactic(auto, unfolding(crate::specs::Saved::saved_adaptation))]
    pub fn load(octets: &mut OctetReader<'_>) -> Option<Adapt>
        ensures loaded { (s : Adaptation) (rest : List ℕ) → InRange s
            → octets.old ≡ saved_adaptation s ++ rest
            → (result ≡ Some s) × (octets.new ≡ rest) }
        ensures read { IfSome result (λ s. octets.old ≡ saved_adaptation s ++ octets.new) }
    {
        let (yu, yl) = load_scales(octets)?;
        let (dms, dml, ap) = load_speeds(octets)?;
        let td = octets.read_bool()?;
        Some(Adapt {
            yu,
            yl,
            dms,
            dml,
            ap,
            td,
            y: mix(yu, yl, lima(ap)),
        })
    }
}

// The number as a signed one, if it is in the range.
fn within(number: u32, low: u32, high: u32) -> Option<i32>
    requires { high < 2 ^ 31 }
    ensures loaded { low ≤ number → number ≤ high → result ≡ Some (pos number) }
    ensures read { IfSome result (λ z. z ≡ pos number) }
    ensures low { IfSome result (λ z. pos low ≤ℤ z) }
    ensures high { IfSome result (λ z. z ≤ℤ pos high) }
{
    if number < low || number > high {
        return None;
    }
    Some(number as i32)
}

// Reads a 16-bit variable, if it is in the range.
fn load_u16(octets: &mut OctetReader<'_>, low: u32, high: u32) -> Option<i32>
    requires { high < 2 ^ 16 }
    ensures loaded { (z : ℤ) (rest : List ℕ) → pos low ≤ℤ z → z ≤ℤ pos high
        → octets.old ≡ two_octets (unsigned_abs z) ++ rest → (result ≡ Some z) × (octets.new ≡ rest) }
    ensures read { IfSome result (λ z. octets.old ≡ two_octets (unsigned_abs z) ++ octets.new) }
    ensures low { IfSome result (λ z. pos low ≤ℤ z) }
    ensures high { IfSome result (λ z. z ≤ℤ pos high) }
{
    within(u32::from(octets.read_u16()?), low, high)
}

// Reads a 32-bit variable, if it is in the range.
fn load_u32(octets: &mut OctetReader<'_>, low: u32, high: u32) -> Option<i32>
    requires { high < 2 ^ 31 }
    ensures loaded { (z : ℤ) (rest : List ℕ) → pos low ≤ℤ z → z ≤ℤ pos high
        → octets.old ≡ four_octets (unsigned_abs z) ++ rest → (result ≡ Some z) × (octets.new ≡ rest) }
    ensures read { IfSome result (λ z. octets.old ≡ four_octets (unsigned_abs z) ++ octets.new) }
    ensures low { IfSome result (λ z. pos low ≤ℤ z) }
    ensures high { IfSome result (λ z. z ≤ℤ pos high) }
{
    within(octets.read_u32()?, low, high)
}

fn load_scales(octets: &mut OctetReader<'_>) -> Option<(i32, i32)>
    ensures loaded { (yu yl : ℤ) (rest : List ℕ) → AreScales yu yl → octets.old ≡ saved_scales yu yl ++ rest
        → (result ≡ Some (yu, yl)) × (octets.new ≡ rest) }
    ensures read { IfSome result (λ s. octets.old ≡ saved_scales s.0 s.1 ++ octets.new) }
    ensures range { IfSome result (λ s. AreScales s.0 s.1) }
{
    let yu = load_u16(octets, 544, 5120)?;
    let yl = load_u32(octets, 34816, 327680)?;
    Some((yu, yl))
}

fn load_speeds(octets: &mut OctetReader<'_>) -> Option<(i32, i32, i32)>
    ensures loaded { (dms dml ap : ℤ) (rest : List ℕ) → AreSpeeds dms dml ap
        → octets.old ≡ saved_speeds dms dml ap ++ rest
        → (result ≡ Some (dms, dml, ap)) × (octets.new ≡ rest) }
    ensures read { IfSome result (λ s. octets.old ≡ saved_speeds s.0 s.1 s.2 ++ octets.new) }
    ensures range { IfSome result (λ s. AreSpeeds s.0 s.1 s.2) }
{
    let dms = load_u16(octets, 0, 3584)?;
    let dml = load_u16(octets, 0, 14336)?;
    let ap = load_u16(octets, 0, 512)?;
    Some((dms, dml, ap))
}

fn save_scales(yu: i32, yl: i32, out: &mut Vec<u8>) -> Result<(), AllocError>
    requires { AreScales yu yl }
    ensures { OnOk result (out.new.items ≡ out.old.items ++ saved_scales yu yl) }
{
    append_u16(out, yu as u16)?;
    append_u32(out, yl as u32)
}

fn save_speeds(dms: i32, dml: i32, ap: i32, out: &mut Vec<u8>) -> Result<(), AllocError>
    requires { AreSpeeds dms dml ap }
    ensures { OnOk result (out.new.items ≡ out.old.items ++ saved_speeds dms dml ap) }
{
    append_u16(out, dms as u16)?;
    append_u16(out, dml as u16)?;
    append_u16(out, ap as u16)
}
