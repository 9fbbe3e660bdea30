//! What `check` lists, also after a fault (`check`).

ghost use Rattle.std.specs.Prelude.{◌≡◌, ◌-◌, ◌^◌, ◌<◌};
ghost use Rattle.gw_records.specs.Streams.{CanBegin};
ghost use Rattle.gw_check.specs.Sessions.{Runs, Checks, Lists, checked};

use crate::listing::listing;
use gw_session::laws::cut_recordings_recover;
use gw_session::{Nowhere, RunFault, Sink, Source, Totals, run, write_all};
use gw_switch::Gateway;
use std::alloc::Global;

// Processes the records of a source with a gateway, and writes the answers.
fn replay<S: Source, K: Sink>(
    alloc: Global,
    gateway: &mut Gateway,
    source: &mut S,
    sink: &mut K,
) -> Result<Totals, RunFault>
    requires { CanBegin (S.tells source.old) (K.tells sink.old) }
    ensures { Runs (S.tells source.old) (S.tells source.new) (K.tells sink.old) (K.tells sink.new) result
        gateway.old gateway.new }
{
    cut_recordings_recover();
    run(alloc, gateway, source, sink)
}

/// Processes the records of a source with a gateway, and then writes a line for each circuit, also after a
/// fault.
#[inline(never)]
pub fn check<S: Source, K: Sink>(
    alloc: Global,
    gateway: &mut Gateway,
    source: &mut S,
    sink: &mut K,
) -> Result<Totals, RunFault>
    requires { CanBegin (S.tells source.old) (K.tells sink.old) }
    ensures { Checks (S.tells source.old) (S.tells source.new) (K.tells sink.old) (K.tells sink.new) result
        gateway.old gateway.new }
{
    let mut nowhere = Nowhere;
    let ended = replay(alloc, gateway, source, &mut nowhere);
    list(gateway, ended, sink)
}

// Writes the lines of all circuits after a session with this result. A fault of the session is returned
// before a fault of this write.
fn list<K: Sink>(
    gateway: &Gateway,
    ended: Result<Totals, RunFault>,
    sink: &mut K,
) -> Result<Totals, RunFault>
    requires { (K.tells sink.old).failures < 2 ^ 64 - 1 }
    ensures { Lists gateway.now ended (K.tells sink.old) (K.tells sink.new) result }
{
    let text = listing(gateway);
    let listed = write_all(sink, text.as_slice());
    checked(ended, listed)
}

// The result of a session whose listing was written with this result.
fn checked(
    ended: Result<Totals, RunFault>,
    listed: Result<(), RunFault>,
) -> Result<Totals, RunFault>
    ensures { result ≡ checked ended listed }
{
    let totals = ended?;
    listed?;
    Ok(totals)
}
