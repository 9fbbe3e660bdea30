//! Numbers appended to octets, the most significant octet first.

ghost use Rattle.std.specs.Prelude.{◌≡◌, ◌++◌, OnOk, OnErr, [], ◌∷◌, flat_map};
ghost use Rattle.saved_octets.specs.Numbers.{flag_octet, two_octets, four_octets};

use byteorder::{BigEndian, ByteOrder};
use std::alloc::AllocError;

/// Appends one octet.
pub fn append_u8(out: &mut Vec<u8>, octet: u8) -> Result<(), AllocError>
    ensures octets { OnOk result (out.new.items ≡ out.old.items ++ octet ∷ []) }
    ensures err { OnErr result (out.new.items ≡ out.old.items) }
{
    out.extend_from_slice(&[octet])
}

/// Appends a 16-bit number.
pub fn append_u16(out: &mut Vec<u8>, number: u16) -> Result<(), AllocError>
    ensures octets { OnOk result (out.new.items ≡ out.old.items ++ two_octets number) }
    ensures err { OnErr result (out.new.items ≡ out.old.items) }
{
    let mut octets = [0; 2];
    BigEndian::write_u16(&mut octets, number);
    out.extend_from_slice(&octets)
}

/// Appends 16-bit numbers.
pub fn append_u16s(out: &mut Vec<u8>, numbers: &[u16]) -> Result<(), AllocError>
    ensures { OnOk result (out.new.items ≡ out.old.items ++ flat_map two_octets numbers.now) }
{
    for number in numbers {
        append_u16(out, *number)?;
    }
    Ok(())
}

/// Appends a 32-bit number.
pub fn append_u32(out: &mut Vec<u8>, number: u32) -> Result<(), AllocError>
    ensures octets { OnOk result (out.new.items ≡ out.old.items ++ four_octets number) }
    ensures err { OnErr result (out.new.items ≡ out.old.items) }
{
    let mut octets = [0; 4];
    BigEndian::write_u32(&mut octets, number);
    out.extend_from_slice(&octets)
}

/// Appends a flag: 1 if it is set, otherwise 0.
pub fn append_bool(out: &mut Vec<u8>, flag: bool) -> Result<(), AllocError>
    ensures octets { OnOk result (out.new.items ≡ out.old.items ++ flag_octet flag ∷ []) }
    ensures err { OnErr result (out.new.items ≡ out.old.items) }
{
    append_u8(out, u8::from(flag))
}
