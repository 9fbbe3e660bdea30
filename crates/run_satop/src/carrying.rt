//! How the emulated circuit that the command line asks for is opened and carried (`emulate`).

ghost use Rattle.std.specs.Prelude.{◌≡◌, []};
ghost use Rattle.gw_satop.specs.Session.{HasNoTraffic};

use crate::asked::{CircuitAsked, circuit_asked};
use crate::ends::{open_clock, open_far_end, open_stdin, open_stdout};
use gw_command::SatopOptions;
use gw_records::{NO_TOTALS, RunFault, Totals};
use gw_report::ProgramFault;
use gw_satop::{
    PlayClock, Receiver, SatopCircuit, Sender, SenderSettings, SystemClock, UdpPeer, carry_satop,
};
use gw_trunk::{TrunkInput, TrunkOutput};
use gw_udp::SystemSocket;
use std::net::Net;
use std::random::RandomSource;
use std::rt::{Clock, Stdin, Stdout};

// A random number of 16 bits; 0 if the system has none.
fn draw_16(rt: &impl RandomSource) -> u16 {
    let mut octets = [0u8; 2];
    let _ = rt.fill_bytes(&mut octets);
    u16::from_be_bytes(octets)
}

// A random number of 32 bits; 0 if the system has none.
fn draw_32(rt: &impl RandomSource) -> u32 {
    let mut octets = [0u8; 4];
    let _ = rt.fill_bytes(&mut octets);
    u32::from_be_bytes(octets)
}

// How the packets begin: at random numbers (RFC 3550, 5.1), but for one that is asked for.
fn start_of(rt: &impl RandomSource, asked: &CircuitAsked) -> SenderSettings
    ensures { result.size ≡ asked.now.settings.size }
{
    SenderSettings {
        size: asked.settings.size,
        rtp: asked.rtp,
        sequence: match asked.sequence {
            Some(sequence) => sequence,
            None => draw_16(rt),
        },
        timestamp: draw_32(rt),
        ssrc: draw_32(rt),
    }
}

// Carries a circuit until no octet comes from the trunk any more.
fn carry<I: TrunkInput, O: TrunkOutput, R: Clock + Eprint>(
    circuit: &mut SatopCircuit<I, O, SystemSocket>,
    clock: &mut SystemClock<'_, R>,
) -> Result<Totals, ProgramFault> {
    if carry_satop(circuit, clock).is_ok() {
        return Ok(NO_TOTALS);
    }
    if circuit.is_whole() {
        return Err(ProgramFault::Session(RunFault::Read));
    }
    Err(ProgramFault::Session(RunFault::Write))
}

// Carries the circuit between its ends.
#[inline(never)]
fn emulate_between<I: TrunkInput + Drop, O: TrunkOutput + Drop, R: Clock + Eprint>(
    rt: &(impl RandomSource + AllocGlobal),
    asked: CircuitAsked,
    incoming: I,
    outgoing: O,
    peer: UdpPeer<SystemSocket>,
    clock: &mut SystemClock<'_, R>,
) -> Result<Totals, ProgramFault>
    requires begins { HasNoTraffic (I.came incoming) (O.went outgoing) peer.received.datagrams
        peer.sent.datagrams }
{
    let Ok(receiver) = Receiver::new(rt.alloc(), asked.settings, asked.rtp.is_some()) else {
        return Err(ProgramFault::OutOfMemory);
    };
    let sender = Sender::new(start_of(rt, &asked));
    let pace = PlayClock::new(asked.timing, clock.now());
    let mut circuit = SatopCircuit::new(incoming, outgoing, peer, receiver, sender, pace);
    carry(&mut circuit, clock)
}

// Carries the circuit between standard input and output and the far end.
fn emulate_over<R: Net + Clock + RandomSource + Eprint + AllocGlobal>(
    rt: &R,
    asked: CircuitAsked,
    peer: UdpPeer<SystemSocket>,
    clock: &mut SystemClock<'_, R>,
    input: Stdin,
    output: Stdout,
) -> Result<Totals, ProgramFault>
    requires received { peer.received.datagrams ≡ [] }
    requires sent { peer.sent.datagrams ≡ [] }
{
    let incoming = open_stdin(rt, input)?;
    let outgoing = open_stdout(rt, output)?;
    emulate_between(rt, asked, incoming, outgoing, peer, clock)
}

/// Carries the emulated circuit that the options ask for, between standard input and output and the far end.
/// It is given no files.
///
/// # Errors
///
/// The first cause: [`ProgramFault::PacketSize`] if the size is no size of a packet, [`ProgramFault::FarEnd`]
/// if there is no socket, [`ProgramFault::Trunk`] if a stream can't be waited for,
/// [`ProgramFault::OutOfMemory`], or [`ProgramFault::Session`] if the trunk fails.
pub fn emulate(
    rt: &(impl Net + Clock + RandomSource + Eprint + AllocGlobal),
    options: &SatopOptions<'_>,
    input: Stdin,
    output: Stdout,
) -> Result<Totals, ProgramFault> {
    let asked = circuit_asked(options)?;
    let (mut socket, address) = open_far_end(rt, options)?;
    let mut clock = open_clock(rt, &mut socket)?;
    let peer = UdpPeer::new(socket, address);
    emulate_over(rt, asked, peer, &mut clock, input, output)
}
