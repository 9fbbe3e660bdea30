use arrayvec::ArrayVec;
use satop_packet::{Control, SatopFault, parse, write};

// An RTP header of payload type 0, with sequence number 1, timestamp 2 and SSRC 3 (RFC 3550, 5.1).
const RTP: [u8; 12] = [0x80, 0, 0, 1, 0, 0, 0, 2, 0, 0, 0, 3];

// L and R, LEN 6, sequence number 0x1234, two octets; RSV 3 and FRG 3, LEN 5, sequence number 2, one octet.
#[test]
fn worked_packets(rt: HostRuntime) {
    let view = parse(&[0x0C, 0x06, 0x12, 0x34, 0xD5, 0x55], false).expect(&rt, "no fault");
    let both = Control {
        lost: true,
        remote: true,
        sequence: 0x1234,
    };
    assert!(rt; view.control() == both && view.payload() == [0xD5, 0x55].as_slice());
    let view = parse(&[0x03, 0xC5, 0, 2, 0x55], false).expect(&rt, "no fault");
    let neither = Control {
        lost: false,
        remote: false,
        sequence: 2,
    };
    assert!(rt; view.control() == neither && view.payload() == [0x55].as_slice());
}

#[test]
fn worked_faults(rt: HostRuntime) {
    for (octets, rtp, fault) in [
        ([0, 0, 0].as_slice(), false, SatopFault::Short),
        (&RTP, true, SatopFault::Short),
        (&[0; 16], true, SatopFault::NoRtp),
        (&[0x10, 0, 0, 0], false, SatopFault::NoControl),
        (&[0, 3, 0, 0], false, SatopFault::OtherLength),
    ] {
        assert!(rt; parse(octets, rtp).err() == Some(fault));
    }
}

#[test]
fn written_and_read(rt: HostRuntime) {
    let remote = Control {
        lost: false,
        remote: true,
        sequence: 7,
    };
    let mut out = ArrayVec::new();
    assert!(rt; write(&[], &remote, &[0xD5; 2], &mut out).is_ok());
    assert!(rt; out.as_slice() == [4, 6, 0, 7, 0xD5, 0xD5].as_slice());
    assert!(rt; write(&[], &remote, &[0xD5; 1281], &mut out).is_err() && out.len() == 6);

    // 272 octets, which LEN does not say
    assert!(rt; write(&RTP, &remote, &[0xD5; 256], &mut out).is_ok());
    assert!(rt; out.len() == 272 && out[12] == 4 && out[13] == 0);
    let view = parse(out.as_slice(), true).expect(&rt, "no fault");
    assert!(rt; view.rtp() == RTP.as_slice() && view.payload() == [0xD5; 256].as_slice());
}
