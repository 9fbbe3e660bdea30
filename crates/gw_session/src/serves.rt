//! A session whose datagrams come and go through ports, also with a log (`serve`, `serve_logged`).
ghost use Rattle.std.specs.Prelude.{◌≡◌, IfOk, IfErr, OnOk, false, true};
ghost use Rattle.gw_records.specs.Streams.{CanBegin};
ghost use Rattle.gw_session.specs.Tape.{no_tape};
ghost use Rattle.gw_session.specs.Serve.{ServesAll, ServesUntil, around, around_in, around_log};
ghost use Rattle.gw_session.specs.Watch.{InputsShown, ServesWatched};
ghost use Rattle.gw_session.specs.World.{IsNew};

use crate::exchange::SessionBuffers;
use crate::held::HeldPackets;
use crate::observers::Observers;
use crate::processing::process_records;
use crate::receive_room::ReceiveRoom;
use crate::tape::Tape;
use crate::watch::Watch;
use gw_records::{
    AcceptedKinds, AnswerTime, Line, OctetLine, Ports, Reader, RunFault, Sink, Source, Totals,
};
use gw_switch::Gateway;
use std::alloc::Global;

// The trunk, commands and codecs are read.
const SERVED: AcceptedKinds = AcceptedKinds {
    trunk: true,
    datagrams: false,
    commands: true,
    codecs: true,
};

/// Gives a gateway the T, C and K records of the source, and writes the T and R records that answer them,
/// each before the next record is looked at. Before each octet whose sent slot is a circuit's, the datagrams
/// that wait at the ports of that circuit are given to the gateway: four at most, until none waits or a
/// receive fails. A packet that the gateway sends with an octet goes to the ports before the next octet is
/// looked at. Memory is taken before the first read.
///
/// # Example
///
/// ```rust
/// // `ports` is the caller's own type that implements `Ports`, over sockets or over memory;
/// // a program has FromRead::new(rt.stdin()) and ToWrite::new(rt.stdout())
/// let mut source = FromRead::new(records.as_slice());          // two octets of a trunk in one record
/// let mut sink = ToWrite::new(Vec::new(rt.alloc()));
/// let totals = serve(rt.alloc(), &mut gateway, &mut ports, &mut source, &mut sink)?;
/// assert!(rt; totals.records == 1 && totals.octets == 2);
/// ```
///
/// # Errors
///
/// The first of [`RunFault::BadKind`], [`RunFault::BadCircuit`], [`RunFault::BadCommand`] and
/// [`RunFault::Truncated`] that holds of the records; [`RunFault::Read`] where the source failed, or after
/// 2^62 reads; [`RunFault::Write`] if the sink failed: it has all answers but the last one, and the first
/// octets of that, and the session stops there; [`RunFault::OutOfMemory`] where memory was refused: nothing
/// is read, written, received or sent. A fault of the ports is counted, and ends nothing.
pub fn serve<S: Source, P: Ports, K: Sink>(
    alloc: Global,
    gateway: &mut Gateway,
    ports: &mut P,
    source: &mut S,
    sink: &mut K,
) -> Result<Totals, RunFault>
    requires { CanBegin (S.tells source.old) (K.tells sink.old) }
    ensures ok { IfOk result (ServesAll
        (around (S.tells source.old) (K.tells sink.old) (P.tells ports.old) no_tape)
        (around (S.tells source.new) (K.tells sink.new) (P.tells ports.new) no_tape)
        gateway.old gateway.new) }
    ensures fault { IfErr result (ServesUntil
        (around (S.tells source.old) (K.tells sink.old) (P.tells ports.old) no_tape)
        (around (S.tells source.new) (K.tells sink.new) (P.tells ports.new) no_tape)
        gateway.old gateway.new) }
{
    let Ok(mut reader) = Reader::new(alloc) else {
        return Err(RunFault::OutOfMemory);
    };
    let mut line = OctetLine::new(&mut reader, source, sink, AnswerTime::AtOnce);
    let held = HeldPackets::none(alloc);
    serve_holding(
        alloc,
        held,
        gateway,
        ports,
        &mut line,
        &mut Observers::none(),
    )
}

// Serves a line of which nothing was read and to which nothing was written, and holds packets if `held` does.
#[inline(always)]
fn serve_holding<L: Line, P: Ports, T: Tape, W: Watch>(
    alloc: Global,
    held: HeldPackets,
    gateway: &mut Gateway,
    ports: &mut P,
    line: &mut L,
    observers: &mut Observers<T, W>,
) -> Result<Totals, RunFault>
    requires begins { CanBegin (L.input line.old).source (L.output line.old).sink }
    requires new { IsNew (L.input line.old) (L.output line.old) (L.terms line.old) }
    ensures ok { IfOk result (ServesAll
        (around_in held.holds (L.input line.old).source (L.output line.old).sink (P.tells ports.old)
        (T.tells observers.old.tape))
        (around_in held.holds (L.input line.new).source (L.output line.new).sink (P.tells ports.new)
        (T.tells observers.new.tape))
        gateway.old gateway.new) }
    ensures fault { IfErr result (ServesUntil
        (around_in held.holds (L.input line.old).source (L.output line.old).sink (P.tells ports.old)
        (T.tells observers.old.tape))
        (around_in held.holds (L.input line.new).source (L.output line.new).sink (P.tells ports.new)
        (T.tells observers.new.tape))
        gateway.old gateway.new) }
    ensures kept { L.stops ≡ true → OnOk result (T.is_lost observers.new.tape ≡ false) }
    ensures watched { ServesWatched
        (around_in held.holds (L.input line.old).source (L.output line.old).sink (P.tells ports.old)
        (T.tells observers.old.tape))
        (around_in held.holds (L.input line.new).source (L.output line.new).sink (P.tells ports.new)
        (T.tells observers.new.tape))
        gateway.old gateway.new (InputsShown W.shows gateway.old observers.old.watch observers.new.watch)
        (observers.new.watch ≡ observers.old.watch) result }
    ensures terms { L.terms line.new ≡ L.terms line.old }
{
    let Ok(room) = ReceiveRoom::new(alloc) else {
        return Err(RunFault::OutOfMemory);
    };
    let mut session = SessionBuffers::new(room, held);
    process_records(&SERVED, &mut session, gateway, ports, line, observers)
}

/// Serves the records of a line as [`serve`] does. What the gateway takes is recorded on the tape, in the order
/// in which it takes it, as records of every kind: each before what answers it is written. The packets of a
/// record of the trunk are sent when all of it is on the tape, in their order, behind the receives of its
/// octets. (A record of more than 2,048 octets has its packets sent as they are made.) The watch is shown each
/// datagram when the gateway was given it, and each record when the gateway has acted on it. A record in which a
/// write fails may not be shown. A tape that ends changes nothing of the session; if it is lost, the session
/// ends before the next read, where its records can be ended.
///
/// # Errors
///
/// Those of [`serve`], and [`RunFault::Read`] for a tape that is lost.
pub fn serve_logged<L: Line, P: Ports, T: Tape, W: Watch>(
    alloc: Global,
    gateway: &mut Gateway,
    ports: &mut P,
    line: &mut L,
    observers: &mut Observers<T, W>,
) -> Result<Totals, RunFault>
    requires begins { CanBegin (L.input line.old).source (L.output line.old).sink }
    requires new { IsNew (L.input line.old) (L.output line.old) (L.terms line.old) }
    ensures ok { IfOk result (ServesAll
        (around_log (L.input line.old).source (L.output line.old).sink (P.tells ports.old)
        (T.tells observers.old.tape))
        (around_log (L.input line.new).source (L.output line.new).sink (P.tells ports.new)
        (T.tells observers.new.tape))
        gateway.old gateway.new) }
    ensures fault { IfErr result (ServesUntil
        (around_log (L.input line.old).source (L.output line.old).sink (P.tells ports.old)
        (T.tells observers.old.tape))
        (around_log (L.input line.new).source (L.output line.new).sink (P.tells ports.new)
        (T.tells observers.new.tape))
        gateway.old gateway.new) }
    ensures kept { L.stops ≡ true → OnOk result (T.is_lost observers.new.tape ≡ false) }
    ensures watched { ServesWatched
        (around_log (L.input line.old).source (L.output line.old).sink (P.tells ports.old)
        (T.tells observers.old.tape))
        (around_log (L.input line.new).source (L.output line.new).sink (P.tells ports.new)
        (T.tells observers.new.tape))
        gateway.old gateway.new (InputsShown W.shows gateway.old observers.old.watch observers.new.watch)
        (observers.new.watch ≡ observers.old.watch) result }
{
    let Ok(held) = HeldPackets::new(alloc) else {
        return Err(RunFault::OutOfMemory);
    };
    serve_holding(alloc, held, gateway, ports, line, observers)
}
