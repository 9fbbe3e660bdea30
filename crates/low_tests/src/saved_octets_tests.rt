use saved_octets::{OctetReader, append_bool, append_u8, append_u16, append_u32};
use std::test::Fail;

#[test]
fn numbers_as_octets(rt: HostRuntime) -> Result<(), Fail> {
    let mut out = Vec::new(rt.alloc());
    append_u8(&mut out, 1)?;
    append_u16(&mut out, 0x0203)?;
    append_u32(&mut out, 0x0405_0607)?;
    append_bool(&mut out, true)?;
    assert!(rt; out.as_slice() == [1, 2, 3, 4, 5, 6, 7, 1].as_slice());
    let mut octets = OctetReader::new(&out);
    assert!(rt; octets.read_u8() == Some(1) && octets.read_u16() == Some(0x0203));
    assert!(rt; octets.read_u32() == Some(0x0405_0607) && octets.read_bool() == Some(true));
    assert!(rt; octets.is_empty() && octets.read_u8() == None);

    let mut octets = OctetReader::new(&[1, 2, 3, 4]);
    assert!(rt; octets.read_slice(5).is_none());
    assert!(rt;
        octets.read_slice(3) == Some([1u8, 2, 3].as_slice()) && octets.read_u8() == Some(4)
    );
    Ok(())
}
