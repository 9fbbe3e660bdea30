use crate::gw_session_tests::calls::of_first_call;
use crate::gw_session_tests::gateways::{config, outgoing};
use g704_cas::CircuitNo;
use g726_codec::CodecKind;
use gw_circuit::Dropped;
use gw_switch::{Alarms, Gateway};
use q421_line::{Cmd, LineFault, Role, State};
use std::test::Fail;

#[test]
fn before_alignment(rt: HostRuntime) -> Result<(), Fail> {
    let config = config(Role::Outgoing, CodecKind::G711, 8)?;
    let circuit = CircuitNo::new(1).ok_or("no circuit")?;
    let mut gateway = Gateway::open(rt.alloc(), &config)?;
    let out = gateway.octet(0xD5);
    assert!(rt; out.octet == 0x9B && out.packet.is_none());
    assert_eq!(rt;
        gateway.command(circuit, Cmd::Seize),
        Err(LineFault::NotIdle)
    );
    assert_eq!(rt;
        gateway.datagram(circuit, &[0x80; 12]),
        Err(Dropped::NotOpen)
    );
    Ok(())
}

// The octet at a position of a trunk that is aligned from its first octet on, but for wrong octets in place
// of the signal at 128, 192 and 256, the last one if it is asked for.
fn with_wrong_signals(position: u16, third: bool) -> u8 {
    match position {
        128 | 192 => 0xD5,
        256 if third => 0xD5,
        _ if position % 64 == 0 => 0x9B,
        _ if position % 64 == 32 => 0xDF,
        _ => 0xD5,
    }
}

// What is sent in slot 0 there, and whether the alarm stands after it.
fn in_slot_zero(position: u16, lost: bool) -> Option<(u8, bool)> {
    match position {
        0 => Some((0x9B, true)),
        32 => Some((0xFF, true)),
        64 => Some((0x9B, false)),
        96 | 160 | 224 => Some((0xDF, false)),
        256 => Some((0x9B, lost)),
        288 if lost => Some((0xFF, true)),
        288 => Some((0xDF, false)),
        _ => None,
    }
}

#[test]
fn alignment_lost_after_three_wrong(rt: HostRuntime) -> Result<(), Fail> {
    for third in [true, false] {
        let mut gateway = outgoing(rt.alloc())?;
        for position in 0..289u16 {
            let sent = gateway.octet(with_wrong_signals(position, third)).octet;
            if let Some((octet, alarm)) = in_slot_zero(position, third) {
                assert!(rt;
                    sent == octet && gateway.alarms().frame == alarm,
                    "at {position}"
                );
            }
        }
    }
    Ok(())
}

// What is sent at some positions there, and the state of circuit 1 after it.
fn in_first_call(position: u32) -> Option<(u8, State)> {
    match position {
        0 => Some((0x9B, State::Fault)),
        1 => Some((0xD5, State::Fault)),
        16 => Some((0x0F, State::Fault)),
        32 => Some((0xFF, State::Fault)),
        48 => Some((0x99, State::Fault)),
        96 => Some((0xDF, State::Fault)),
        528 => Some((0x0B, State::Fault)),
        5167 => Some((0xD5, State::Fault)),
        5168 => Some((0x99, State::Idle)),
        5680 => Some((0x19, State::Seized)),
        10799 => Some((0xD5, State::Seized)),
        10800 => Some((0x19, State::Acked)),
        10817 => Some((0xD5, State::Acked)),
        _ => None,
    }
}

#[test]
fn first_call_on_its_line(rt: HostRuntime) -> Result<(), Fail> {
    let mut gateway = outgoing(rt.alloc())?;
    let c = CircuitNo::new(1).ok_or("no circuit")?;
    for position in 0..10_818u32 {
        let sent = gateway.octet(of_first_call(position)).octet;
        if let Some((octet, state)) = in_first_call(position) {
            assert!(rt;
                sent == octet && gateway.status(c).state == state,
                "at {position}"
            );
        }
        if position == 5168 {
            assert!(rt; gateway.command(c, Cmd::Seize) == Ok(()));
        }
    }
    Ok(())
}

// The trunk of the first call, but that the other end has a frame alarm in the fourth frame, and a multiframe
// alarm in the second multiframe.
fn with_remote_alarms(position: u32) -> u8 {
    match position {
        96 => 0xFF,
        528 => 0x0F,
        _ => of_first_call(position),
    }
}

// The alarms after an octet: frame, multiframe, the other end's frame and multiframe.
fn alarms_at(position: u32) -> (bool, bool, bool, bool) {
    (
        position < 64,
        position < 528,
        position >= 96 && position < 160,
        position >= 528,
    )
}

#[test]
fn tells_alarms_and_next_slot(rt: HostRuntime) -> Result<(), Fail> {
    let mut gateway = outgoing(rt.alloc())?;
    for position in 0..600u32 {
        let slot = (position % 32) as u8;
        let circuit = match slot {
            0 | 16 => None,
            _ => CircuitNo::new(if slot < 16 { slot } else { slot - 1 }),
        };
        assert!(rt; gateway.next_slot() == circuit, "at {position}");
        let _sent = gateway.octet(with_remote_alarms(position));
        let Alarms {
            frame,
            multiframe,
            remote_frame,
            remote_multiframe,
        } = gateway.alarms();
        let told = (frame, multiframe, remote_frame, remote_multiframe);
        assert!(rt; told == alarms_at(position), "at {position}");
    }
    Ok(())
}
