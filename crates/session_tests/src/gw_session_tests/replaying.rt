//! Whole calls, replayed.
ghost use Rattle.std.specs.Prelude.{◌<◌};

use super::calls::{Session, Trunk, Written, take_apart};
use super::done;
use super::gateways::{config, outgoing};
use super::memory::{MemSink, MemSource};
use g704_cas::CircuitNo;
use g726_codec::CodecKind;
use gw_circuit::Status;
use gw_session::{RunFault, Totals, run};
use gw_switch::Gateway;
use q421_line::Role;
use std::alloc::{AllocError, Global};
use std::test::Fail;

const SEIZE: [u8; 5] = [0x43, 0x01, 0x00, 0x01, 0x01];

// The first octets of the first datagram of the first call.
const FIRST: [u8; 16] = [
    0x44, 0x01, 0x00, 0xAC, 0x80, 0x08, 0x00, 0x00, 0x00, 0x00, 0x01, 0x52, 0x00, 0x00, 0x00, 0x01,
];

// What a session ended with, what it wrote for a circuit, and what is told of that circuit then.
#[derive(Drop)]
struct Replayed {
    ended: Result<Totals, RunFault>,
    written: Written,
    status: Status,
}

// Replays a session, of which at most this many octets are given by a read.
fn replay(
    alloc: Global,
    gateway: &mut Gateway,
    session: &Session,
    most: usize,
    circuit: u8,
) -> Result<Replayed, Fail> {
    let mut source = MemSource::new(alloc, session.octets.as_slice(), most, None)?;
    let mut sink = MemSink::new(most, None);
    let ended = run(alloc, gateway, &mut source, &mut sink);
    Ok(Replayed {
        ended,
        written: take_apart(alloc, circuit, sink.octets.as_slice())?,
        status: gateway.status(CircuitNo::new(circuit).ok_or("a circuit")?),
    })
}

// .. the session of circuit 1, by a gateway that was opened for it.
fn replay_first(alloc: Global, session: &Session, most: usize) -> Result<Replayed, Fail> {
    replay(alloc, &mut outgoing(alloc)?, session, most, 1)
}

// The session of a call of circuit 1, which is seized after octet 5168.
fn call(alloc: Global, trunk: Trunk, end: u32, most: u16) -> Result<Session, AllocError>
    requires { 0 < most }
{
    let mut session = Session::new(alloc);
    session.add_trunk(trunk, 0, 5169, most)?;
    session.add(&SEIZE)?;
    session.add_trunk(trunk, 5169, end, most)?;
    Ok(session)
}

// Records of each length, and a source that gives as many octets as it is told.
const CUTS: [(u16, usize); 6] = [
    (65_535, 131_078),
    (1, 131_078),
    (31, 131_078),
    (32, 131_078),
    (65_535, 1),
    (65_535, 3),
];

// The first datagram of the call; and its trunk, which is the same however it is cut (trunk_cut_otherwise).
#[test]
fn first_call(rt: HostRuntime) -> Result<(), Fail> {
    let mut datagram = [0xD4; 176];
    datagram[..16].copy_from_slice(&FIRST);
    let mut trunk = Vec::new(rt.alloc());
    for (most, given) in CUTS {
        let session = call(rt.alloc(), Trunk::FirstCall, 15_906, most.max(1))?;
        let first = replay_first(rt.alloc(), &session, given)?;
        let written = first.written;
        assert!(rt; first.ended.is_ok(), "of {most}, {given} at a time");
        assert!(rt; written.answers.as_slice() == [0x52, 0x01, 0x00, 0x02, 0x43, 0x00].as_slice());
        assert!(rt; written.datagrams.as_slice() == datagram.as_slice());
        if trunk.is_empty() {
            assert!(rt; first.ended == done(3, 15_906, 1, 0));
            trunk = written.trunk.clone()?;
        }
        assert!(rt; written.trunk.as_slice() == trunk.as_slice());
    }
    assert!(rt; trunk.len() == 15_906 && trunk[5168] == 0x99 && trunk[5680] == 0x19);
    Ok(())
}

// The samples of octets 51201, 51233, .., 51425: four are heard in slots that are not theirs, three are not
// heard while alignment is looked for, and the last is the call's again. They stand in the eighth datagram.
#[test]
fn inserted_octets(rt: HostRuntime) -> Result<(), Fail> {
    let session = call(rt.alloc(), Trunk::Inserted, 57_000, 512)?;
    let call = replay_first(rt.alloc(), &session, 131_078)?;
    let datagrams = call.written.datagrams.as_slice();
    assert!(rt; datagrams.len() == 9 * 176);
    for (place, timestamp) in [(0, 0x0152u16), (7, 0x05B2), (8, 0x0652)] {
        let front = &datagrams[place * 176..place * 176 + 16];
        assert!(rt; front[8..12] == [0, 0, (timestamp >> 8) as u8, (timestamp & 255) as u8]);
    }
    let samples = &datagrams[7 * 176 + 16..8 * 176];
    assert!(rt; samples[142..150] == [0x00, 0xD6, 0xD6, 0xD6, 0xD5, 0xD5, 0xD5, 0xD4]);
    assert!(rt; samples[141] == 0xD4);
    Ok(())
}

// A codec record after octet 12000: its type, the octet that ends the session, what answers it, and how long
// the one datagram is and how it begins.
type Change = (u8, u32, u8, usize, [u8; 16]);

const CODEC_CHANGED_IN_CALL: Change = (
    0x60,
    17_090,
    0x00,
    96,
    [
        0x44, 0x01, 0x00, 0x5C, 0x80, 0x60, 0x00, 0x00, 0x00, 0x00, 0x01, 0x77, 0x00, 0x00, 0x00,
        0x01,
    ],
);

// codec_refused: the call goes on as it would have.
const CODEC_REFUSED: Change = (0x08, 15_906, 0x1F, 176, FIRST);

#[test]
fn codec_changed_in_call(rt: HostRuntime) -> Result<(), Fail> {
    for (payload_type, end, answer, len, front) in [CODEC_CHANGED_IN_CALL, CODEC_REFUSED] {
        let mut session = call(rt.alloc(), Trunk::FirstCall, 12_001, 65_535)?;
        session.add(&[0x4B, 0x01, 0x00, 0x02, 0x04, payload_type])?;
        session.add_trunk(Trunk::FirstCall, 12_001, end, 65_535)?;
        let written = replay_first(rt.alloc(), &session, 131_078)?.written;
        let answers = [0x52, 1, 0, 2, 0x43, 0, 0x52, 1, 0, 2, 0x4B, answer];
        assert!(rt; written.answers.as_slice() == answers.as_slice());
        assert!(rt; written.datagrams.len() == len && written.datagrams.starts_with(&front));
        let trunk = written.trunk;
        assert!(rt; trunk.len() > 15_905 && trunk[5168] == 0x99 && trunk[5680] == 0x19);
    }
    Ok(())
}

// Two datagrams fill the window of an open path; then one that is too long for it, one that is too long at
// all, one of another payload type, and one of 11 octets. What answers them is behind the first six octets.
#[test]
fn refusals_when_full(rt: HostRuntime) -> Result<(), Fail> {
    let mut session = call(rt.alloc(), Trunk::FirstCall, 10_801, 65_535)?;
    for (payload_type, timestamp, len) in [
        (8, 0, 1600),
        (8, 1600, 1600),
        (8, 3200, 1),
        (8, 3200, 1601),
        (13, 0, 1),
    ] {
        session.add_datagram(1, payload_type, timestamp, len)?;
    }
    session.add(&[0x44, 1, 0, 11, 0x80, 8, 0, 0, 0, 0, 0, 0, 0, 0, 0])?;
    let call = replay_first(rt.alloc(), &session, 131_078)?;
    assert!(rt; call.ended == done(9, 10_801, 0, 4));
    let mut answers = call.written.answers.as_slice().chunks(6);
    for (kind, code) in [
        (0x43, 0),
        (0x44, 0),
        (0x44, 0),
        (0x44, 16),
        (0x44, 15),
        (0x44, 11),
        (0x44, 1),
    ] {
        assert!(rt; answers.next() == Some([0x52, 0x01, 0x00, 0x02, kind, code].as_slice()));
    }
    Ok(())
}

// Circuits 3 and 18, both of G.726 at 32 kbit/s. Circuit 18 is left alone, or is in a call too and gets
// datagrams that are repeated, late and too long, and, where it is asked for, codecs.
fn two_calls(alloc: Global, hostile: bool, codecs: bool) -> Result<Session, AllocError> {
    let trunk = if hostile {
        Trunk::Hostile
    } else {
        Trunk::Quiet
    };
    let mut session = Session::new(alloc);
    session.add_trunk(trunk, 0, 5632, 640)?;
    session.add(&[0x43, 0x03, 0x00, 0x01, 0x01])?;
    if hostile {
        session.add(&[0x43, 0x12, 0x00, 0x01, 0x01])?;
    }
    session.add_trunk(trunk, 5632, 11_264, 640)?;
    for block in 0..4u32 {
        let timestamp = 80 * block;
        session.add_datagram(3, 96, timestamp, 40)?;
        if hostile {
            session.add_datagram(18, 96, timestamp, 40)?;
            session.add_datagram(18, 96, timestamp, 40)?;
            session.add_datagram(18, 96, 4_294_967_000, 40)?;
            session.add_datagram(18, 96, timestamp, 1700)?;
        }
        if codecs {
            session.add(&[0x4B, 0x12, 0x00, 0x02, 0x05, 0x60])?;
        }
        let from = 11_264 + 2560 * block;
        session.add_trunk(trunk, from, from + 2560, 640)?;
    }
    Ok(session)
}

// The octets of a trunk are the same in slot 3, and in the high half of slot 16 of frame 3.
fn agrees_on_three(one: &[u8], other: &[u8]) -> bool {
    if one.len() != other.len() {
        return false;
    }
    for position in 0..one.len() {
        let mask = match (position % 32, position / 32 % 16) {
            (3, _) => 0xFF,
            (16, 3) => 0xF0,
            _ => 0,
        };
        if one[position] & mask != other[position] & mask {
            return false;
        }
    }
    true
}

// Circuits 3 and 18, replayed, and what is written for circuit 3.
fn replay_two(alloc: Global, hostile: bool, codecs: bool) -> Result<Replayed, Fail> {
    let session = two_calls(alloc, hostile, codecs)?;
    let mut gateway = Gateway::open(alloc, &config(Role::Outgoing, CodecKind::G32, 96)?)?;
    replay(alloc, &mut gateway, &session, 131_078, 3)
}

// Circuit 3 by itself, and with a neighbour; the second time that has codecs (hostile_neighbour_with_codecs).
#[test]
fn hostile_neighbour(rt: HostRuntime) -> Result<(), Fail> {
    let alone = replay_two(rt.alloc(), false, false)?;
    assert!(rt; alone.ended.is_ok() && alone.written.datagrams.len() == 2 * 96);
    assert!(rt; alone.written.answers.len() == 5 * 6);
    for codecs in [false, true] {
        let beside = replay_two(rt.alloc(), true, codecs)?;
        assert!(rt; beside.ended.is_ok() && alone.status == beside.status);
        assert!(rt; alone.written.answers.as_slice() == beside.written.answers.as_slice());
        assert!(rt; alone.written.datagrams.as_slice() == beside.written.datagrams.as_slice());
        let (one, other) = (
            alone.written.trunk.as_slice(),
            beside.written.trunk.as_slice(),
        );
        assert!(rt; one != other && agrees_on_three(one, other));
    }
    Ok(())
}
