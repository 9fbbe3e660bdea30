//! A call over UDP, on ports of 127.0.0.1 that are free.

use crate::gw_session_tests::calls::{Session, Trunk};
use crate::gw_session_tests::gateways::outgoing;
use byteorder::{BigEndian, ByteOrder};
use g704_cas::CircuitNo;
use gw_config::Port;
use gw_repeat::Repeating;
use gw_session::{FromRead, Ports, ToWrite, serve};
use gw_udp::{Descriptors, Socket, SourceFilter, SystemSocket, UdpPorts};
use std::net::UdpSocket;
use std::test::Fail;

// A socket for circuit 1, whose datagrams go to this peer.
fn ports_to<S: Socket>(rt: &HostRuntime, peer: &UdpSocket) -> Result<UdpPorts<S>, Fail> {
    peer.set_nonblocking(true)?;
    let mut circuits = [const { None }; 30];
    circuits[0] = Some(Port {
        local_port: 0,
        peer_host: String::from_str(rt.alloc(), "127.0.0.1")?,
        peer_port: peer.local_addr()?.port(),
    });
    let opened = UdpPorts::<S>::open(
        rt,
        rt.alloc(),
        "127.0.0.1",
        &circuits,
        SourceFilter::Any,
        Descriptors::none(),
    );
    Ok(opened.ok().ok_or("sockets")?)
}

#[test]
fn first_call_over_udp(rt: HostRuntime) -> Result<(), Fail> {
    let peer = UdpSocket::bind(&rt, "127.0.0.1:0")?;
    let mut ports = ports_to::<SystemSocket>(&rt, &peer)?;
    let mut gateway = outgoing(rt.alloc())?;
    let mut session = Session::new(rt.alloc());
    session.add_trunk(Trunk::FirstCall, 0, 5169, 65_535)?;
    session.add(&[0x43, 0x01, 0x00, 0x01, 0x01])?;
    session.add_trunk(Trunk::FirstCall, 5169, 15_906, 65_535)?;
    let mut source = FromRead::new(session.octets.as_slice());
    let mut sink = ToWrite::new(Vec::new(rt.alloc()));
    let ended = serve(rt.alloc(), &mut gateway, &mut ports, &mut source, &mut sink);
    assert!(rt; ended.is_ok());
    let mut room = [0u8; 252];
    let (len, _) = peer.recv_from(&mut room)?;
    let header = [0x80, 8, 0, 0, 0, 0, 0x01, 0x52, 0, 0, 0, 1];
    assert!(rt; len == 172 && room.starts_with(&header) && room[12..172] == [0xD4; 160]);
    Ok(())
}

// The timestamps of datagrams that are sent, and of those that arrive where each is sent again behind the
// next one. There is a gap before the fourth, so the third is not sent again.
const SENT: [u32; 5] = [0, 160, 320, 1_000, 1_160];

const ARRIVED: [u32; 8] = [0, 160, 0, 320, 160, 1_000, 1_160, 1_000];

#[test]
fn each_datagram_twice_over_udp(rt: HostRuntime) -> Result<(), Fail> {
    let peer = UdpSocket::bind(&rt, "127.0.0.1:0")?;
    let mut ports = Repeating::open(
        rt.alloc(),
        ports_to::<SystemSocket>(&rt, &peer)?,
        1,
        [160; 30],
    )?;
    let circuit = CircuitNo::new(1).ok_or("no circuit")?;
    let mut datagram = [0x80, 8, 0, 0, 0, 0, 0, 0, 0, 0, 0, 9, 0xD5];
    for timestamp in SENT {
        BigEndian::write_u32(&mut datagram[4..8], timestamp);
        assert!(rt; ports.send(circuit, &datagram).is_ok());
    }
    let mut room = [0u8; 252];
    for timestamp in ARRIVED {
        let (len, _) = peer.recv_from(&mut room)?;
        assert!(rt; len == 13 && BigEndian::read_u32(&room[4..8]) == timestamp);
    }
    assert!(rt; peer.recv_from(&mut room).is_err());
    Ok(())
}
