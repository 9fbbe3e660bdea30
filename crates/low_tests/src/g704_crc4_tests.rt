use g704_crc4::{Counts, Crc4Inserter, EBitReporter, check, find_multiframe};

// Six multiframes as they are sent, with E bits that report nothing.
fn six_multiframes() -> [u8; 3072] {
    let (mut error_bits, mut multiframer) = (EBitReporter::new(), Crc4Inserter::new());
    let mut sent = [0u8; 3072];
    for place in 0..3072usize {
        let has_bit = multiframer.next_has_e_bit();
        sent[place] = multiframer.octet(error_bits.octet((place % 251) as u8, has_bit));
    }
    sent
}

#[test]
fn multiframes_are_found_and_right(rt: HostRuntime) {
    let mut sent = six_multiframes();
    assert!(rt; find_multiframe(&sent) == Some(0));
    // from its third double frame on
    assert!(rt; find_multiframe(&sent[128..]) == Some(6));
    assert!(rt; find_multiframe(&sent[2272..]) == None);
    // an E bit of 0 counts as an error of the far end, and is itself a bit error here
    sent[416] ^= 0x80;
    let counts = Counts {
        blocks: 11,
        errored: 1,
        far_end_errored: 1,
    };
    assert!(rt; check(&sent) == counts);
}
