//! The examples of the doc comments, over readers and writers of std.

use super::gateways::outgoing;
use super::ports::MemPorts;
use super::{SPEECH, two_records};
use e1_g711::Law;
use g726_codec::CodecKind;
use gw_session::{FromRead, StreamSpec, ToWrite, decode_stream, encode_stream, run, serve};
use std::test::Fail;

// A trunk record of two octets.
const TRUNK: [u8; 6] = [0x54, 0, 0, 2, 0xD5, 0xD5];

#[test]
fn example_of_encode(rt: HostRuntime) -> Result<(), Fail> {
    let speech = SPEECH;
    let spec = StreamSpec::new(Law::A, CodecKind::G711, 8, 7, 65535, 4294967200, 20).ok_or(
        "a stream",
    )?;
    let mut source = FromRead::new(speech.as_slice());
    let mut sink = ToWrite::new(Vec::new(rt.alloc()));
    let totals = encode_stream(&spec, &mut source, &mut sink)?;
    assert!(rt; totals.datagrams == 2);
    Ok(())
}

#[test]
fn example_of_decode(rt: HostRuntime) -> Result<(), Fail> {
    let records = two_records();
    let spec = StreamSpec::new(Law::A, CodecKind::G711, 8, 0, 0, 0, 20).ok_or("a stream")?;
    let mut source = FromRead::new(records.as_slice());
    let mut sink = ToWrite::new(Vec::new(rt.alloc()));
    let totals = decode_stream(rt.alloc(), &spec, &mut source, &mut sink)?;
    assert!(rt; totals.records == 2 && totals.dropped == 0);
    Ok(())
}

#[test]
fn example_of_run(rt: HostRuntime) -> Result<(), Fail> {
    let records = TRUNK;
    let mut gateway = outgoing(rt.alloc())?;
    let mut source = FromRead::new(records.as_slice());
    let mut sink = ToWrite::new(Vec::new(rt.alloc()));
    let totals = run(rt.alloc(), &mut gateway, &mut source, &mut sink)?;
    assert!(rt; totals.records == 1 && totals.octets == 2);
    Ok(())
}

#[test]
fn example_of_serve(rt: HostRuntime) -> Result<(), Fail> {
    let records = TRUNK;
    let mut gateway = outgoing(rt.alloc())?;
    let mut ports = MemPorts::new(rt.alloc(), 1, &[], 0)?;
    let mut source = FromRead::new(records.as_slice());
    let mut sink = ToWrite::new(Vec::new(rt.alloc()));
    let totals = serve(rt.alloc(), &mut gateway, &mut ports, &mut source, &mut sink)?;
    assert!(rt; totals.records == 1 && totals.octets == 2);
    Ok(())
}
