use e1_g711::Law;
use g704_cas::{CircuitNo, Nibble};
use g726_codec::CodecKind;
use gw_circuit::Status;
use gw_listing::line;
use q421_line::{Pair, Role, State};
use std::test::Fail;

#[test]
fn listing_with_codec(rt: HostRuntime) -> Result<(), Fail> {
    let status = Status {
        role: Role::Outgoing,
        law: Law::A,
        codec: CodecKind::G711,
        payload_type: 8,
        state: State::Fault,
        sent: Pair::of(Nibble::new(0b1001).ok_or("a nibble")?),
        recognised: None,
        sent_count: 0,
        received: 0,
        dropped: 0,
    };
    let want = " 1 outgoing fault       10 --          0          0          0 pcma      8";
    assert!(rt; line(CircuitNo::new(1).ok_or("1")?, &status).as_str() == want);
    let widest = Status {
        role: Role::Incoming,
        law: Law::Mu,
        codec: CodecKind::G40,
        payload_type: 127,
        state: State::ClearedBack,
        sent: Pair::of(Nibble::new(0b1101).ok_or("a nibble")?),
        recognised: Some(Pair::of(Nibble::new(0b0101).ok_or("a nibble")?)),
        sent_count: 4294967295,
        received: 10,
        dropped: 9,
    };
    let want = "30 incoming clearedback 11 01 4294967295         10          9 g726-40 127";
    assert!(rt; line(CircuitNo::new(30).ok_or("30")?, &widest).as_str() == want);
    Ok(())
}
