//! Serves a trunk and its clients by a gateway, until no octet comes any more (`serve_trunk`).

ghost use Rattle.std.specs.Prelude.{◌≡◌, OnOk, false};
ghost use Rattle.gw_session.specs.Watch.{InputsShown, ServesWatched};
ghost use Rattle.run_trunk.specs.Serving.{CarriesTrunk, IsUntouched, around_line, traffic};

use gw_session::{Line, Observers, Ports, RunFault, Tape, Totals, Watch, serve_logged};
use gw_switch::Gateway;
use gw_trunk::{ToDevice, TrunkInput, TrunkLine};
use std::alloc::Global;
use std::rt::Stdout;
use trunk_filters::Outgoing;

/// A trunk whose octets go to standard output.
pub(crate) type DeviceLine<I> = TrunkLine<I, Outgoing<ToDevice<Stdout>>>;

// Serves a trunk and its clients by a gateway until no octet comes any more: for each octet that comes the
// one goes that the gateway sends with it, in their order, and nothing else goes. For each record of a
// client an answer goes to clients, in their order, and nothing else does. Datagrams come and go through the
// ports, the tape takes what happens, and the watch is shown it, as in `serve_logged`.
//
// # Errors
//
// [`RunFault::Read`] where the device that octets come from fails, or the tape is lost: all that came is
// answered.
// [`RunFault::Write`] where the other fails. [`RunFault::OutOfMemory`] where memory was refused: nothing
// comes, is asked or goes.
#[inline(never)]
pub(crate) fn serve_trunk<I: TrunkInput, P: Ports, T: Tape, W: Watch>(
    alloc: Global,
    gateway: &mut Gateway,
    ports: &mut P,
    line: &mut DeviceLine<I>,
    observers: &mut Observers<T, W>,
) -> Result<Totals, RunFault>
    requires { IsUntouched (⟦<DeviceLine<I> as Line>⟧.input line.old) (⟦<DeviceLine<I> as Line>⟧.output line.old)
        (⟦<DeviceLine<I> as Line>⟧.terms line.old) }
    ensures carries { CarriesTrunk
        (around_line (⟦<DeviceLine<I> as Line>⟧.input line.old) (⟦<DeviceLine<I> as Line>⟧.output line.old)
        (P.tells ports.old) (T.tells observers.old.tape))
        (around_line (⟦<DeviceLine<I> as Line>⟧.input line.new) (⟦<DeviceLine<I> as Line>⟧.output line.new)
        (P.tells ports.new) (T.tells observers.new.tape))
        (traffic (I.came line.new.source.incoming) (I.asked line.new.source.incoming)
        line.new.sink.outgoing.log.octets (I.told line.new.source.incoming)) gateway.old gateway.new result }
    ensures kept { OnOk result (T.is_lost observers.new.tape ≡ false) }
    ensures watched { ServesWatched
        (around_line (⟦<DeviceLine<I> as Line>⟧.input line.old) (⟦<DeviceLine<I> as Line>⟧.output line.old)
        (P.tells ports.old) (T.tells observers.old.tape))
        (around_line (⟦<DeviceLine<I> as Line>⟧.input line.new) (⟦<DeviceLine<I> as Line>⟧.output line.new)
        (P.tells ports.new) (T.tells observers.new.tape))
        gateway.old gateway.new (InputsShown W.shows gateway.old observers.old.watch observers.new.watch)
        (observers.new.watch ≡ observers.old.watch) result }
{
    serve_logged(alloc, gateway, ports, line, observers)
}
