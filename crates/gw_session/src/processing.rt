//! The loop of a session over the records of its source, and how it ends (`process_records`).
ghost use Rattle.std.specs.Prelude.{◌≡◌, ◌^◌, [], IfOk, IfErr, OnOk, Some, false, true};
ghost use Rattle.std.specs.Io.KnownBytes.{Appends};
ghost use Rattle.gw_records.specs.Reader.{FailsToRead, ReadsOn};
ghost use Rattle.gw_records.specs.Records.{end_of};
ghost use Rattle.gw_records.specs.Streams.{CanBegin, CanCount};
ghost use Rattle.gw_records.specs.Outcome.{nothing_counted, EndsAll, EndsUntil};
ghost use Rattle.gw_session.specs.Exchange.{written_by, TookBut, WatchedTrace, TraceToWriteError};
ghost use Rattle.gw_session.specs.Exchange.{IsSilent};
ghost use Rattle.gw_session.specs.Watch.{InputsShown};
ghost use Rattle.gw_session.specs.World.{output_of, state_in, world_in};

use crate::exchange::SessionBuffers;
use crate::observers::Observers;
use crate::packet_ports::PacketPorts;
use crate::tape::Tape;
use crate::watch::Watch;
use gw_records::{AcceptedKinds, Line, RecordsEnd, RunFault, Totals, answer};
use gw_switch::Gateway;

// Takes more of the source, as `Line::read_on` does, unless the tape is lost and the records can be ended.
fn read_more<L: Line, T: Tape>(
    kinds: &AcceptedKinds,
    ending: RecordsEnd,
    line: &mut L,
    tape: &T,
) -> Result<bool, RunFault>
    requires ends { end_of kinds.now (L.input line.old).held.octets ≡ Some ending }
    requires reads { CanCount (L.input line.old).source.failures }
    ensures ok { IfOk result (λ came. ReadsOn (L.input line.old).source (L.input line.new).source
        (L.input line.old).held (L.input line.new).held ending came) }
    ensures fault { IfErr result (λ e. (e ≡ RunFault.Read) × FailsToRead (L.input line.old).source
        (L.input line.new).source (L.input line.old).held (L.input line.new).held ending) }
    ensures kept { L.stops ≡ true → ending ≡ RecordsEnd.End → OnOk result (T.is_lost tape.now ≡ false) }
    ensures output { L.output line.new ≡ L.output line.old }
    ensures terms { L.terms line.new ≡ L.terms line.old }
{
    if tape.is_lost() {
        line.stop(ending)?;
    }
    line.read_on(kinds, ending)
}

/// Gives a gateway the records of the line, of these kinds, records on the tape what it takes, and shows the
/// watch each datagram and then each record when the gateway has acted on it. Before each record the tape is
/// shown the gateway. If the tape is lost, the session ends before the next read, where its records can be
/// ended. It is inlined, so that a session tests for no other kinds than its own.
#[inline(always)]
pub(crate) fn process_records<O: PacketPorts<L>, L: Line, T: Tape, W: Watch>(
    kinds: &AcceptedKinds,
    session: &mut SessionBuffers,
    gateway: &mut Gateway,
    packet_ports: &mut O,
    line: &mut L,
    observers: &mut Observers<T, W>,
) -> Result<Totals, RunFault>
    requires begins { CanBegin (L.input line.old).source (L.output line.old).sink }
    requires holds { (L.input line.old).held.octets ≡ [] }
    requires turns { (L.input line.old).held.reads_left ≡ 2 ^ 62 }
    requires totals { session.old.totals ≡ nothing_counted }
    requires waiting { (L.output line.old).waiting ≡ [] }
    requires silent { session.old.held.holds ≡ true → IsSilent O.spells }
    ensures ok { IfOk result (EndsAll kinds.now (L.input line.old).source (L.input line.new).source
        (L.output line.old).sink (L.output line.new).sink
        (λ totals. WatchedTrace (written_by O.spells)
        (TookBut (L.terms line.old).late (L.output line.old).sink.taken)
        (state_in session.old.held.holds (O.tells packet_ports.old) gateway.old nothing_counted)
        (state_in session.old.held.holds (O.tells packet_ports.new) gateway.new totals)
        (T.tells observers.old.tape) (T.tells observers.new.tape)
        (λ first. Appends (L.output line.old).sink.taken (L.output line.new).sink.taken)
        (λ inputs. InputsShown W.shows gateway.old observers.old.watch observers.new.watch inputs []))) }
    ensures kept { L.stops ≡ true → OnOk result (T.is_lost observers.new.tape ≡ false) }
    ensures fault { IfErr result (EndsUntil kinds.now (L.input line.old).source (L.input line.new).source
        (L.output line.old).sink (L.output line.new).sink
        (λ totals. WatchedTrace (written_by O.spells)
        (TookBut (L.terms line.old).late (L.output line.old).sink.taken)
        (state_in session.old.held.holds (O.tells packet_ports.old) gateway.old nothing_counted)
        (state_in session.old.held.holds (O.tells packet_ports.new) gateway.new totals)
        (T.tells observers.old.tape) (T.tells observers.new.tape)
        (λ first. Appends (L.output line.old).sink.taken (L.output line.new).sink.taken)
        (λ inputs. InputsShown W.shows gateway.old observers.old.watch observers.new.watch inputs []))
        (TraceToWriteError (L.terms line.old).late O.spells
        (InputsShown W.shows gateway.old observers.old.watch observers.new.watch)
        (world_in session.old.held.holds (O.tells packet_ports.old) gateway.old nothing_counted
        (T.tells observers.old.tape) (output_of (L.output line.old).sink []))
        (λ totals. world_in session.old.held.holds (O.tells packet_ports.new) gateway.new totals
        (T.tells observers.new.tape) (output_of (L.output line.new).sink [])))) }
    ensures terms { L.terms line.new ≡ L.terms line.old }
{
    'handling: loop {
        match line.first(kinds) {
            Ok(first) => {
                observers.tape.keep::<O, L>(gateway, packet_ports, line);
                session.handle_record(gateway, packet_ports, &first, line, observers)?;
                let body = line.body(&first);
                observers
                    .watch
                    .after(&first.head, body, session.code, gateway);
                line.pass(&first);
            }
            Err(ending) => {
                line.write_out()?;
                if !read_more(kinds, ending, line, &observers.tape)? {
                    return answer(ending, session.totals);
                }
            }
        }
    }
}
