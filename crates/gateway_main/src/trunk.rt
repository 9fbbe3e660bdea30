//! What `trunk` does, and in which order it opens, serves, saves and ends.

use gw_command::TrunkOptions;
use gw_open::{
    begin_gateway, begin_log, end_session, lock_log, open_teller, open_trunk_ports, read_config,
};
use gw_report::ProgramFault;
use gw_session::{Observers, Tape, Totals};
use run_trunk::{open_trunk, serve};
use std::alloc::{AllocError, Global};
use std::fs::File;
use std::net::Net;
use std::rt::{Files, Stderr, Stdin, Stdout};

// The fault if the log of a trunk took a write no more.
fn log_lost(alloc: Global, options: &TrunkOptions<'_>) -> Result<ProgramFault, AllocError> {
    let folder = options.log.unwrap_or("");
    Ok(ProgramFault::LogLost(String::from_str(alloc, folder)?))
}

/// Serves the trunk at standard input and output. The folder of its log, if it has one, is locked meanwhile.
#[inline(never)]
pub(crate) fn run(
    rt: &(impl Files<File = File> + Net + Eprint + AllocGlobal),
    options: &TrunkOptions<'_>,
    input: Stdin,
    output: Stdout,
    errors: Stderr,
) -> Result<Totals, ProgramFault> {
    let _lock = lock_log(rt, options)?;
    let trunk = open_trunk(rt, options, input, output, errors)?;
    let config = read_config(rt, &options.session)?;
    let mut gateway = begin_gateway(rt, &options.session, options.log, &config)?;
    let tape = begin_log(rt, options, &config, &gateway)?;
    let mut ports = open_trunk_ports(rt, options, &config)?;
    let watch = open_teller(rt, options.tell, &config, &gateway)?;
    let mut observers = Observers { tape, watch };
    let law = config.gateway.law;
    let end = serve(law, &mut gateway, trunk, &mut ports, &mut observers);
    let Observers { tape, watch } = observers;
    if let Some(mut teller) = watch {
        teller.end();
    }
    let told = end_session(rt, &options.session, &config, &gateway, end.ended);
    if tape.is_lost() {
        return Err(log_lost(rt.alloc(), options)?);
    }
    if told.is_ok() && options.session.totals {
        end.print(rt);
    }
    told
}
