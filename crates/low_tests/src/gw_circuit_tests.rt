use e1_g711::Law;
use g704_cas::Nibble;
use g726_codec::CodecKind;
use gw_circuit::{Circuit, CircuitConfig, Dropped};
use q421_line::{Role, State};
use std::process::Abort;
use std::test::Fail;

// An incoming circuit of G.711, with packets of 10 ms.
fn incoming() -> Result<CircuitConfig, Fail> {
    Ok(CircuitConfig::new(Role::Incoming, CodecKind::G711, 8, 10, 0, 9, 0, 0).ok_or("a circuit")?)
}

#[test]
fn without_a_call(rt: HostRuntime) -> Result<(), Fail> {
    let config = incoming()?;
    let mut circuit = Circuit::new(rt.alloc(), Law::A, &config)?;
    let (octet, datagram) = circuit.slot(Some(0xD4));
    assert!(rt; octet == 0xD5 && datagram.is_none());
    assert_eq!(rt; circuit.signal(Nibble::new(0b1001)).get(), 0b1101);
    assert_eq!(rt; circuit.datagram(&[0x80; 12]), Err(Dropped::NotOpen));
    Ok(())
}

fn ten_signals(circuit: &mut Circuit, bits: u8) -> State {
    for _time in 0..10u8 {
        let _sent = circuit.signal(Nibble::new(bits));
    }
    circuit.status().state
}

// Slots that hear 0xD4 and send no datagram. The second sends this octet, the others 0xD5.
fn hear(rt: &impl Abort, circuit: &mut Circuit, slots: u8, second: u8) {
    for time in 0..slots {
        let (sent, packet) = circuit.slot(Some(0xD4));
        let due = if time == 1 { second } else { 0xD5 };
        assert!(rt; sent == due && packet.is_none(), "at {time}");
    }
}

// A slot that hears 0xD4 and sends 80 octets of it behind this header.
fn sends(circuit: &mut Circuit, header: &[u8]) -> bool {
    match circuit.slot(Some(0xD4)) {
        (0xD5, Some(packet)) => {
            packet.len() == 92 && packet.starts_with(header) && packet.ends_with(&[0xD4; 80])
        }
        _ => false,
    }
}

const DATAGRAM: [u8; 14] = [0x80, 8, 0, 0, 0, 0, 0, 0, 0, 0, 0, 9, 0xD5, 0xD4];

#[test]
fn two_calls_on_one_circuit(rt: HostRuntime) -> Result<(), Fail> {
    let mut circuit = Circuit::new(rt.alloc(), Law::A, &incoming()?)?;
    let _idle = ten_signals(&mut circuit, 0b1001);
    assert!(rt; ten_signals(&mut circuit, 0b0001) == State::Acked);
    assert!(rt; circuit.datagram(&DATAGRAM) == Ok(()));
    hear(&rt, &mut circuit, 79, 0xD4);
    assert!(rt; sends(&mut circuit, &[0x80, 8, 0, 0, 0, 0, 0, 0, 0, 0, 0, 9]));
    hear(&rt, &mut circuit, 40, 0xD5);
    assert!(rt; ten_signals(&mut circuit, 0b1001) == State::Idle);
    assert!(rt; circuit.datagram(&DATAGRAM) == Err(Dropped::NotOpen));
    let _acked = ten_signals(&mut circuit, 0b0001);
    hear(&rt, &mut circuit, 79, 0xD5);
    assert!(rt; sends(&mut circuit, &[0x80, 8, 0, 1, 0, 0, 0, 120, 0, 0, 0, 9]));
    let status = circuit.status();
    assert!(rt; status.sent_count == 2 && status.received == 1 && status.dropped == 1);
    Ok(())
}
