//! What `align`, `crc4` and `crc4 --check` do on standard input and output.

ghost use Rattle.std.specs.Prelude.{◌≡◌, []};
ghost use Rattle.gw_records.specs.Streams.{CanBegin};

use gw_command::Crc4Options;
use gw_filter::{
    NoReports, ReportSink, ReportingChecker, ReportingSender, ToReports, align_stream,
    crc4_check_stream, crc4_stream,
};
use gw_open::open_reports;
use gw_report::{LiveCounts, ProgramFault, print_checked};
use gw_session::{FromRead, RunFault, ToWrite, Totals};
use std::fs::File;
use std::rt::{Files, Stdin, Stdout};

// Puts CRC-4 multiframes into what goes, with the E bits that the reports ask for.
fn send(
    reports: Option<File>,
    source: &mut FromRead<Stdin>,
    sink: &mut ToWrite<Stdout>,
) -> Result<Totals, RunFault>
    requires { CanBegin (⟦<FromRead<Stdin> as gw_session::Source>⟧.tells source.old)
        (⟦<ToWrite<Stdout> as gw_session::Sink>⟧.tells sink.old) }
{
    match reports {
        Some(file) => crc4_stream(&mut ReportingSender::new(FromRead::new(file)), source, sink),
        None => crc4_stream(&mut ReportingSender::new(NoReports::new()), source, sink),
    }
}

// Checks the CRC-4 multiframes of what comes, and prints what was counted.
fn check_by<R: ReportSink + Drop>(
    rt: &impl Eprint,
    live: bool,
    reports: R,
    unreported: bool,
    source: &mut FromRead<Stdin>,
    sink: &mut ToWrite<Stdout>,
) -> Result<Totals, RunFault>
    requires unsent { R.sent reports ≡ [] }
    requires streams { CanBegin (⟦<FromRead<Stdin> as gw_session::Source>⟧.tells source.old)
        (⟦<ToWrite<Stdout> as gw_session::Sink>⟧.tells sink.old) }
{
    let mut checker = ReportingChecker::new(reports, LiveCounts { rt, live });
    let checked = crc4_check_stream(&mut checker, source, sink)?;
    print_checked(rt, unreported, &checked);
    Ok(checked.totals)
}

// Checks what comes. Errored submultiframes are reported, if there are reports.
fn check(
    rt: &impl Eprint,
    live: bool,
    reports: Option<File>,
    source: &mut FromRead<Stdin>,
    sink: &mut ToWrite<Stdout>,
) -> Result<Totals, RunFault>
    requires { CanBegin (⟦<FromRead<Stdin> as gw_session::Source>⟧.tells source.old)
        (⟦<ToWrite<Stdout> as gw_session::Sink>⟧.tells sink.old) }
{
    match reports {
        Some(file) => check_by(rt, live, ToReports::new(file), true, source, sink),
        None => check_by(rt, live, NoReports::new(), false, source, sink),
    }
}

// Sends or checks CRC-4 multiframes, with these reports. It is given no files.
fn crc4_through(
    rt: &impl Eprint,
    options: &Crc4Options<'_>,
    reports: Option<File>,
    source: &mut FromRead<Stdin>,
    sink: &mut ToWrite<Stdout>,
) -> Result<Totals, RunFault>
    requires { CanBegin (⟦<FromRead<Stdin> as gw_session::Source>⟧.tells source.old)
        (⟦<ToWrite<Stdout> as gw_session::Sink>⟧.tells sink.old) }
{
    if options.check {
        check(rt, options.live, reports, source, sink)
    } else {
        send(reports, source, sink)
    }
}

/// Aligns standard input to its time slots, on standard output.
///
/// # Errors
///
/// [`ProgramFault::Session`] if a read or a write fails.
#[inline(never)]
pub(crate) fn align(input: Stdin, output: Stdout) -> Result<Totals, ProgramFault> {
    let mut source = FromRead::new(input);
    let mut sink = ToWrite::new(output);
    align_stream(&mut source, &mut sink).map_err(ProgramFault::Session)
}

/// Sends or checks CRC-4 multiframes from standard input to standard output, with the reports of a FIFO, if
/// one is named.
///
/// # Errors
///
/// [`ProgramFault::Reports`] if the FIFO can't be opened, or [`ProgramFault::Session`] if a read or a write
/// fails.
#[inline(never)]
pub(crate) fn crc4(
    rt: &(impl Files<File = File> + Eprint + AllocGlobal),
    options: &Crc4Options<'_>,
    input: Stdin,
    output: Stdout,
) -> Result<Totals, ProgramFault> {
    let reports = open_reports(rt, options.reports)?;
    let mut source = FromRead::new(input);
    let mut sink = ToWrite::new(output);
    crc4_through(rt, options, reports, &mut source, &mut sink).map_err(ProgramFault::Session)
}
