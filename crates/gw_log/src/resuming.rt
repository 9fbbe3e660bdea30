//! How a gateway goes on from what a log has (`resumed_of`).

ghost use Rattle.std.specs.Prelude.{◌≡◌, ◌≢◌, ◌<◌, ◌^◌, IfOk, IfSome, OnOk, Some, None, length, true, false};
ghost use Rattle.gw_state.specs.declared.loading.Loaded.{Loaded};
ghost use Rattle.log_files.specs.Loading.{kept_of};
ghost use Rattle.gw_log.specs.LogContents.{contents_of};
ghost use Rattle.gw_log.specs.Resuming.{GoesOnWith, HaveSameCircuits, IsFromLog, IsReplayed, IsResumed};
ghost use Rattle.gw_log.specs.Resuming.{AreNewFiles, WasGivenAll};

use crate::log_contents::LogContents;
use crate::state::{ResumeFault, load_trouble, loaded_of};
use gw_circuit::CircuitConfig;
use gw_session::{Nowhere, RunFault, Source, SourceFault, run};
use gw_state::{load_gateway, state_file};
use gw_switch::{Gateway, GatewayConfig};
use log_files::KeptContents;
use std::alloc::Global;

/// A gateway that goes on, and the configuration that it was kept with.
#[derive(Drop)]
pub struct Found {
    /// The gateway, with the configuration that it goes on with.
    pub gateway: Gateway,
    /// The configuration that it was kept with.
    pub old: GatewayConfig,
}

// The records of a log as a source, which has all of them.
#[derive(Drop)]
struct KeptRecords<'a> {
    rest: &'a [u8],
    reads: u64,
}

impl Source for KeptRecords<'_> {
    ghost tells = { λ s. record {
      failures = 0;
      reads = s.reads;
      given = None;
      to_come = Some s.rest.now;
    } };

    fn read(&mut self, buf: &mut [u8]) -> Result<usize, SourceFault> {
        let len = self.rest.len().min(buf.len());
        let (first, rest) = self.rest.split_at(len);
        buf[..len].copy_from_slice(first);
        self.rest = rest;
        self.reads = self.reads.saturating_add(1);
        Ok(len)
    }
}

// The fault if a gateway does not take the records of a log.
fn run_trouble(fault: RunFault) -> ResumeFault {
    match fault {
        RunFault::OutOfMemory => ResumeFault::OutOfMemory,
        _ => ResumeFault::Damaged,
    }
}

// Gives a gateway what the records say that octets spell. What answers them goes nowhere.
fn give_all(alloc: Global, gateway: &mut Gateway, records: &[u8]) -> Result<(), ResumeFault>
    requires { length records.now < 2 ^ 32 }
    ensures { OnOk result (WasGivenAll records.now gateway.old gateway.new) }
{
    let mut source = KeptRecords {
        rest: records,
        reads: 0,
    };
    match run(alloc, gateway, &mut source, &mut Nowhere) {
        Ok(_) => Ok(()),
        Err(fault) => Err(run_trouble(fault)),
    }
}

// The gateway of what was kept, loaded with this configuration, and behind its records.
fn replayed(
    alloc: Global,
    config: &GatewayConfig,
    kept: &KeptContents<'_>,
) -> Result<Gateway, ResumeFault>
    requires { length kept.now.records.now < 2 ^ 32 }
    ensures { IfOk result (λ gateway. (loaded : Loaded)
        × IsReplayed (kept_of kept.now) config.now loaded gateway) }
{
    let mut gateway = match loaded_of(alloc, config, kept.state) {
        Ok(loaded) => loaded.gateway,
        Err(fault) => return Err(fault),
    };
    match give_all(alloc, &mut gateway, kept.records) {
        Ok(()) => Ok(gateway),
        Err(fault) => Err(fault),
    }
}

// Whether two configurations of a circuit are the same.
fn is_same(old: &CircuitConfig, config: &CircuitConfig) -> bool
    ensures yes { result ≡ true → old.now ≡ config.now }
    ensures no { result ≡ false → old.now ≢ config.now }
{
    old == config
}

// Whether two configurations have the same circuits.
fn have_same_circuits(old: &GatewayConfig, config: &GatewayConfig) -> bool
    ensures yes { result ≡ true → HaveSameCircuits old.now config.now 30 }
    ensures no { result ≡ false → ¬ HaveSameCircuits old.now config.now 30 }
{
    for at in 0..config.circuits.len() {
        if !is_same(&old.circuits[at], &config.circuits[at]) {
            return false;
        }
    }
    true
}

// The gateway with another configuration. Circuits whose configuration changed begin as new.
fn renewed(
    alloc: Global,
    old: &GatewayConfig,
    config: &GatewayConfig,
    gateway: &Gateway,
) -> Result<Gateway, ResumeFault>
    requires { ¬ HaveSameCircuits old.now config.now 30 }
    ensures { IfOk result (GoesOnWith old.now config.now gateway.now) }
{
    let Ok(state) = state_file(alloc, old, gateway) else {
        return Err(ResumeFault::OutOfMemory);
    };
    match load_gateway(alloc, config, state.as_slice()) {
        Ok(loaded) => Ok(loaded.gateway),
        Err(fault) => Err(load_trouble(fault)),
    }
}

// The gateway of what was kept, with this configuration.
fn resumed(
    alloc: Global,
    config: &GatewayConfig,
    kept: &KeptContents<'_>,
) -> Result<Found, ResumeFault>
    requires { length kept.now.records.now < 2 ^ 32 }
    ensures { IfOk result (λ resumed. IsResumed (kept_of kept.now) config.now resumed.gateway) }
{
    let found = loaded_of(alloc, config, kept.state)?;
    let before = replayed(alloc, &found.old, kept)?;
    let old = found.old;
    if have_same_circuits(&old, config) {
        return Ok(Found {
            gateway: before,
            old,
        });
    }
    match renewed(alloc, &old, config, &before) {
        Ok(gateway) => Ok(Found { gateway, old }),
        Err(fault) => Err(fault),
    }
}

/// The gateway of what the files of a log have: that of the state that was kept last, with the configuration
/// that it was kept with, behind the records that were kept behind it, and then with this configuration. None
/// if nothing was ever kept.
///
/// # Errors
///
/// [`ResumeFault::Damaged`] if something was kept and nothing is whole, [`ResumeFault::State`] if the state
/// is of another version, [`ResumeFault::OutOfMemory`].
pub fn resumed_of(
    alloc: Global,
    config: &GatewayConfig,
    contents: &LogContents,
) -> Result<Option<Found>, ResumeFault>
    ensures some { IfOk result (λ found. IfSome found (λ resumed. IsFromLog (contents_of contents.now.first)
        (contents_of contents.now.second) config.now resumed.gateway)) }
    ensures none { IfOk result (λ found. found ≡ None → AreNewFiles (contents_of contents.now.first)
        (contents_of contents.now.second)) }
{
    match contents.newest()? {
        Some(loaded) => match resumed(alloc, config, &loaded.kept()) {
            Ok(resumed) => Ok(Some(resumed)),
            Err(fault) => Err(fault),
        },
        None => Ok(None),
    }
}
