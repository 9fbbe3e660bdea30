//! How a trunk that is open is served, through its filters (`serve`).

ghost use Rattle.std.specs.Prelude.{◌≡◌, []};
ghost use Rattle.trunk_filters.specs.Trunk.{AreFresh};
ghost use Rattle.run_trunk.specs.Opening.{IsFreshTrunk};

use crate::opening::{Incoming, OpenTrunk};
use crate::serving::serve_trunk;
use e1_g711::Law;
use gw_filter::Checked;
use gw_report::{print_checked, print_discarded};
use gw_session::{Observers, Ports, RunFault, Tape, Totals, Watch};
use gw_switch::Gateway;
use gw_trunk::{DeviceFault, MultiframeDropper, ToDevice, TrunkInput, TrunkLine};
use std::alloc::Global;
use std::rt::{Stderr, Stdout};
use trunk_filters::{
    TrunkFilters, checker_from, filtered_input, finish_input, finish_output, framed_output, parted,
    slot_input,
};

/// How a trunk ended.
#[derive(Drop)]
pub struct TrunkEnd {
    /// The result of its session.
    pub ended: Result<Totals, RunFault>,
    // What was counted of CRC-4 multiframes, if they were checked.
    checked: Option<Checked>,
    // The multiframes that were discarded.
    discarded: u64,
}

impl TrunkEnd {
    /// Prints the counts.
    pub fn print(&self, rt: &impl Eprint) {
        if let Some(checked) = &self.checked {
            print_checked(rt, true, checked);
        }
        print_discarded(rt, self.discarded);
    }
}

// The result of a trunk whose session ended so, and its output so.
fn ended_behind(
    ended: Result<Totals, RunFault>,
    output: &Result<bool, DeviceFault>,
) -> Result<Totals, RunFault> {
    match (ended, output) {
        (Ok(_), Err(_)) => Err(RunFault::Write),
        (ended, _) => ended,
    }
}

// The ends of a trunk.
#[derive(Drop)]
struct TrunkEnds<I: TrunkInput> {
    incoming: I,
    outgoing: ToDevice<Stdout>,
    filters: TrunkFilters,
    errors: Stderr,
    alloc: Global,
}

// Serves a trunk between its ends by a gateway, through the filters that are there.
#[inline(never)]
fn serve_ends<I: TrunkInput + Drop, P: Ports, T: Tape, W: Watch>(
    law: Law,
    gateway: &mut Gateway,
    ends: TrunkEnds<I>,
    ports: &mut P,
    observers: &mut Observers<T, W>,
) -> TrunkEnd
    requires came { I.came ends.incoming ≡ [] }
    requires asked { I.asked ends.incoming ≡ [] }
    requires went { ends.outgoing.log.octets ≡ [] }
    requires told { I.told ends.incoming ≡ [] }
    requires fresh { AreFresh ends.filters }
{
    let TrunkEnds {
        incoming,
        outgoing,
        filters,
        errors,
        alloc,
    } = ends;
    let TrunkFilters {
        slots,
        live,
        aligner,
        crc4,
    } = filters;
    let (outward, reports) = parted(crc4);
    let whole = slot_input(errors, incoming, slots, law, gateway);
    let incoming = filtered_input(whole, aligner, checker_from(errors, live, outward));
    let framed = framed_output(outgoing, slots, reports, gateway);
    let mut line = TrunkLine::new(incoming, MultiframeDropper::new(framed, errors));
    let ended = serve_trunk(alloc, gateway, ports, &mut line, observers);
    let (incoming, outgoing) = line.into_ends();
    let (discarded, output) = finish_output(outgoing);
    TrunkEnd {
        ended: ended_behind(ended, &output),
        checked: finish_input(incoming),
        discarded,
    }
}

/// Serves a trunk by a gateway of this law, until no octet comes any more. Datagrams come and go through the
/// ports, the tape takes what happens, and the watch is shown it.
pub fn serve<P: Ports, T: Tape, W: Watch>(
    law: Law,
    gateway: &mut Gateway,
    trunk: OpenTrunk,
    ports: &mut P,
    observers: &mut Observers<T, W>,
) -> TrunkEnd
    requires { IsFreshTrunk trunk }
{
    let OpenTrunk {
        incoming,
        outgoing,
        filters,
        errors,
        alloc,
    } = trunk;
    match incoming {
        Incoming::Alone(incoming) => {
            let ends = TrunkEnds {
                incoming,
                outgoing,
                filters,
                errors,
                alloc,
            };
            serve_ends(law, gateway, ends, ports, observers)
        }
        Incoming::Clients(incoming) => {
            let ends = TrunkEnds {
                incoming,
                outgoing,
                filters,
                errors,
                alloc,
            };
            serve_ends(law, gateway, ends, ports, observers)
        }
    }
}
