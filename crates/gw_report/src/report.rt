//! The lines of a report: totals, CRC-4 counts and skipped datagrams.

use crate::program_fault::ProgramFault;
use gw_filter::{Checked, CountsTeller, ReceiverCounts};
use gw_records::Totals;

// Prints a name and a value.
fn print_row(rt: &impl Eprint, name: &str, value: u64) {
    let _ = eprintln!(rt; "{name} {value}");
}

/// Prints how many datagrams `decode` skipped, if any.
pub fn print_skipped(rt: &impl Eprint, totals: &Totals) {
    let dropped = totals.dropped;
    let datagrams = totals.records;
    if dropped > 0 {
        let _ = eprintln!(rt; "passed over {dropped} of {datagrams} datagrams");
    }
}

// Prints the totals of a session, one name and value a line.
fn print_totals(rt: &impl Eprint, totals: &Totals) {
    print_row(rt, "records", totals.records);
    print_row(rt, "octets", totals.octets);
    print_row(rt, "datagrams", totals.datagrams);
    print_row(rt, "dropped", totals.dropped);
    print_row(rt, "port_faults", totals.port_faults);
}

/// Prints a result: its totals if they are asked for, or its fault.
pub fn print_result(rt: &impl Eprint, asked: bool, ended: &Result<Totals, ProgramFault>) {
    match ended {
        Ok(totals) => {
            if asked {
                print_totals(rt, totals);
            }
        }
        Err(program_fault) => {
            let _ = eprintln!(rt; "{program_fault}");
        }
    }
}

/// Prints what was counted of CRC-4 multiframes, and if that is asked for how many errored submultiframes
/// were not reported.
pub fn print_checked(rt: &impl Eprint, unreported: bool, checked: &Checked) {
    let counts = &checked.receiver_counts;
    print_row(rt, "submultiframes", counts.submultiframes);
    print_row(rt, "errored", counts.errored);
    print_row(rt, "far_end_errored", counts.far_end_errored);
    print_row(rt, "multiframes_found", counts.found);
    print_row(rt, "multiframes_lost", counts.lost);
    print_row(rt, "given_up", counts.given_up);
    if unreported {
        print_row(rt, "unreported", checked.unreported);
    }
}

/// Prints how many multiframes of a trunk were discarded.
pub fn print_discarded(rt: &impl Eprint, discarded: u64) {
    print_row(rt, "discarded_multiframes", discarded);
}

/// Prints the CRC-4 counts up to now as a line.
pub fn print_live(rt: &impl Eprint, counts: &ReceiverCounts) {
    let _ = eprintln!(rt;
        "live submultiframes {} errored {} far_end_errored {} multiframes_found {} \
         multiframes_lost {} given_up {}",
        counts.submultiframes,
        counts.errored,
        counts.far_end_errored,
        counts.found,
        counts.lost,
        counts.given_up
    );
}

/// Prints the counts of a checker, if that is asked for.
#[derive(Drop)]
pub struct LiveCounts<'r, E> {
    /// Where it prints.
    pub rt: &'r E,
    /// Whether it prints.
    pub live: bool,
}

impl<E: Eprint> CountsTeller for LiveCounts<'_, E> {
    ghost use Rattle.std.specs.Prelude.{⊤};

    ghost has_told = { λ _ _. ⊤ };

    fn tell(&mut self, counts: &ReceiverCounts) {
        if self.live {
            print_live(self.rt, counts);
        }
    }
}
