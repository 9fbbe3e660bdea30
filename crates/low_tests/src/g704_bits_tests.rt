use g704_bits::BitAligner;

// The octet at a place of the far end's trunk: slot 0 as it is to be, and speech that is no signal.
fn trunk(place: usize) -> u8 {
    match place % 64 {
        0 => 0x9B,
        32 => 0xDF,
        _ => (place % 251) as u8 | 0x44,
    }
}

// The octet of the trunk that comes this many bits late. Its first octet comes behind itself.
fn late(bits: u32, place: usize) -> u8 {
    let pair = u16::from(trunk(place.saturating_sub(1))) << 8 | u16::from(trunk(place));
    (pair.wrapping_shr(bits) & 0xFF) as u8
}

#[test]
fn three_bits_late(rt: HostRuntime) {
    let mut aligner = BitAligner::new();
    for place in 0..639usize {
        let _octet = aligner.octet(late(3, place));
    }
    assert_eq!(rt; aligner.octet(late(3, 639)), trunk(638));
}
