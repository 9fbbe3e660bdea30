//! The loop of `satop` until its trunk ends, and when its counts are reported (`carry_satop`).

ghost use Rattle.std.specs.Prelude.{◌≡◌, ◌⊎◌, ◌≤◌, ◌^◌, ◌++◌, [], length, IfOk, IfErr};
ghost use Rattle.gw_satop.specs.Counts.{CountsSends, ReportsChanges};
ghost use Rattle.gw_satop.specs.Doing.{HasHeardAll, RefusesOctets};
ghost use Rattle.gw_satop.specs.Session.{HasSettings, PlaysAll, SendsAll};

use crate::circuit::SatopCircuit;
use crate::counts::Counts;
use crate::system::SystemClock;
use gw_trunk::{DeviceFault, TrunkInput, TrunkOutput};
use gw_udp::Socket;
use std::rt::Clock;

// Counts are reported so often at most.
const REPORT_US: u64 = 1_000_000;

// Reports the counts if they have changed, at most once a second. Returns those reported last, and when.
fn report_changes<R: Clock + Eprint>(
    clock: &mut SystemClock<'_, R>,
    now: u64,
    counts: Counts,
    last: (Counts, u64),
) -> (Counts, u64)
    ensures reports { ReportsChanges now counts last result }
    ensures waits { clock.new.waits ≡ clock.old.waits }
{
    if counts == last.0 || now.saturating_sub(last.1) < REPORT_US {
        return last;
    }
    clock.report(&counts);
    (counts, now)
}

/// Carries an emulated circuit until no octet comes from the trunk any more.
///
/// The octets that go to the trunk are those of the time slots for the octets of the packets that come, in
/// order, with others in place of the missing ones, and each is played when it is due. The packets that are
/// sent have the octets that come from the trunk, in order, each once, and bit R in silence.
///
/// # Errors
///
/// [`DeviceFault`] if a device of the trunk fails, or takes no octet, or if it was waited for 2^63 times. All
/// clauses hold then too, and what the trunk did not take is left.
pub fn carry_satop<I: TrunkInput, O: TrunkOutput, S: Socket, R: Clock + Eprint>(
    circuit: &mut SatopCircuit<I, O, S>,
    clock: &mut SystemClock<'_, R>,
) -> Result<(), DeviceFault>
    ensures plays { ∥ PlaysAll circuit.new.receiver circuit.new.pace circuit.new.counts
        circuit.new.sender.log.flags circuit.new.peer.received.datagrams
        (O.went circuit.new.outgoing ++ circuit.new.left.items) ∥₁ }
    ensures sends { SendsAll circuit.new.sender circuit.new.peer.sent.datagrams
        (I.came circuit.new.incoming) }
    ensures same { HasSettings circuit.old.receiver circuit.new.receiver
        circuit.old.sender circuit.new.sender circuit.old.pace circuit.new.pace }
    ensures counted { ∥ CountsSends circuit.new.counts circuit.new.sender.log.flags
        circuit.new.peer.sent.flags ∥₁ }
    ensures ended { IfOk result (λ _. I.has_ended circuit.new.incoming × (circuit.new.left.items ≡ [])) }
    ensures hears { IfOk result (λ _. HasHeardAll S.receives circuit.new.peer) }
    ensures fault { IfErr result (λ _. (I.has_failed circuit.new.incoming
        ⊎ RefusesOctets O.has_failed O.has_taken O.waits circuit.new.outgoing)
        ⊎ (2 ^ 63 ≤ length clock.new.waits.octets)) }
{
    let mut last = (circuit.counts(), clock.now());
    for _turn in 0..u64::MAX {
        let now = clock.now();
        if circuit.turn(now)? {
            clock.report(&circuit.counts());
            return circuit.flush();
        }
        last = report_changes(clock, now, circuit.counts(), last);
        clock.wait(circuit.plan());
    }
    Err(DeviceFault)
}
