//! Whether octets are a state: mark, version, checksum, configuration, gateway (`load_gateway`).

ghost use Rattle.std.specs.Prelude.{◌≡◌, ◌≢◌, ◌≤◌, ◌<◌, ◌++◌, ◌∷◌, [], ℕ, List, IfOk, IfErr, IfSome, IfNone};
ghost use Rattle.std.specs.Prelude.{length, take};
ghost use Rattle.std.specs.Prelude.{slice_index, OnErr};
ghost use Rattle.gw_switch.specs.declared.GatewayConfig as configs;
ghost use Rattle.gw_switch.specs.Standing.{HasHistory};
ghost use Rattle.gw_switch.specs.Saved.{saved_gateway};
ghost use Rattle.gw_switch.specs.Reconfigured.{IsReconfigured, RenewalsConfigure};
ghost use Rattle.gw_state.specs.Layout.{mark, summed, saved_config, ConfigFits};
ghost use Rattle.gw_state.specs.Faults.{BeginsWith, IsOutside, IsOther, IsOfValue, IsNoGateway, IsNotRead};
ghost use Rattle.gw_state.specs.Faults.{Refuses};
ghost use Rattle.gw_state.specs.Loaded.{GoesOn, ReadsAs, IsLoaded};
ghost use Rattle.gw_state.specs.Memory.{MemoryIsRefused};

use crate::fault::{LoadFault, StateKind};
use crate::head::law_octet;
use crate::settings::read_circuits;
use gw_switch::{Gateway, GatewayConfig, StateFault};
use saved_octets::OctetReader;
use sha2::{Digest, Sha256};
use std::alloc::{AllocError, Global};

// The octets of the least state.
const LEAST: usize = 518;

// The octets of a checksum.
const SUM_LEN: usize = 32;

// The octets before a checksum that is right.
fn summed_front(octets: &[u8]) -> Option<&[u8]>
    requires { 32 ≤ length octets.now }
    ensures right { IfSome result (λ front. octets.now ≡ summed front.now) }
    ensures wrong { IfNone result ((front : List ℕ) → octets.now ≢ summed front) }
{
    let (front, sum) = octets.split_at(octets.len() - SUM_LEN);
    let right: [u8; 32] = Sha256::digest(front);
    if right.as_slice() == sum {
        Some(front)
    } else {
        None
    }
}

// The octets before the checksum of a state.
fn front_of(octets: &[u8]) -> Result<&[u8], LoadFault>
    ensures front { IfOk result (λ front. octets.now ≡ summed front.now) }
    ensures begins { IfOk result (λ front. BeginsWith (mark ++ 1 ∷ []) octets.now) }
    ensures err { IfErr result (IsOutside octets.now) }
{
    if octets.len() < LEAST {
        return Err(LoadFault::of(StateKind::Short));
    }
    if octets[..4] != [0x45, 0x31, 0x47, 0x53] {
        return Err(LoadFault::of(StateKind::NoState));
    }
    if octets[4] != 1 {
        return Err(LoadFault::of(StateKind::Version));
    }
    summed_front(octets).ok_or(LoadFault::of(StateKind::Sum))
}

// The fault of a state by that of its gateway's octets.
fn of_value(fault: StateFault) -> LoadFault
    ensures { IsOfValue result }
{
    let at = match fault {
        StateFault::Trunk => 0,
        StateFault::Circuit(number) => number,
    };
    LoadFault::Refused {
        kind: StateKind::Value,
        at,
    }
}

// The octets between the version and the checksum.
fn inner_of(octets: &[u8]) -> Result<&[u8], LoadFault>
    ensures inner { IfOk result (λ inner. octets.now ≡ summed (mark ++ 1 ∷ inner.now)) }
    ensures err { IfErr result (IsOutside octets.now) }
{
    let front = front_of(octets)?;
    Ok(&front[5..])
}

// How the circuits of a trunk of this law were configured. The error is the number of the first circuit whose
// octets are those of none, or 0 for another law.
fn read_config(config: &GatewayConfig, octets: &mut OctetReader<'_>) -> Result<GatewayConfig, u8>
    ensures next { (old : configs.GatewayConfig) (rest : List ℕ) → ConfigFits old → old.law ≡ config.now.law
        → octets.old ≡ saved_config old ++ rest → (result ≡ Ok old) × (octets.new ≡ rest) }
    ensures read { IfOk result (λ old. octets.old ≡ saved_config old ++ octets.new) }
    ensures law { IfOk result (λ old. old.law ≡ config.now.law) }
    ensures fits { IfOk result ConfigFits }
    ensures err { IfErr result (IsOther config.now octets.old) }
{
    if octets.read_u8() != Some(law_octet(config.law)) {
        return Err(0);
    }
    let mut circuits = config.circuits;
    read_circuits(&mut circuits, octets)?;
    Ok(GatewayConfig {
        law: config.law,
        circuits,
    })
}

// The gateway whose octets these are, read into one that was opened.
fn gateway_of(opened: Gateway, octets: &mut OctetReader<'_>) -> Result<Gateway, LoadFault>
    ensures loaded { IfOk result (λ gateway. octets.old ≡ saved_gateway gateway) }
    ensures stands { (old : configs.GatewayConfig) → HasHistory old opened []
        → IfOk result (GoesOn old octets.old) }
    ensures err { (old : configs.GatewayConfig) → HasHistory old opened []
        → IfErr result (IsNoGateway old octets.old) }
{
    match opened.load(octets) {
        Err(fault) => Err(of_value(fault)),
        Ok(gateway) => {
            if octets.is_empty() {
                Ok(gateway)
            } else {
                Err(LoadFault::of(StateKind::Left))
            }
        }
    }
}

// A new gateway that is configured so. The error is that memory was refused.
#[tactic(auto, unfolding(crate::specs::Memory::MemoryIsRefused))]
fn open(alloc: Global, config: &GatewayConfig) -> Result<Gateway, AllocError>
    ensures opened { IfOk result (λ gateway. HasHistory config.now gateway []) }
    ensures err { OnErr result MemoryIsRefused }
{
    Gateway::open(alloc, config)
}

// A gateway whose circuits are configured otherwise. The error is that memory was refused.
#[tactic(auto, unfolding(crate::specs::Memory::MemoryIsRefused))]
fn reconfigure(
    saved: Gateway,
    alloc: Global,
    old: &GatewayConfig,
    config: &GatewayConfig,
) -> Result<Gateway, AllocError>
    ensures reconfigured { IfOk result (λ gateway. IsReconfigured old.now config.now saved gateway) }
    ensures err { OnErr result MemoryIsRefused }
{
    saved.reconfigured(alloc, old, config)
}

// The gateway whose configuration and octets these are, with its circuits configured as they are to be.
fn read_gateway(
    alloc: Global,
    config: &GatewayConfig,
    octets: &mut OctetReader<'_>,
) -> Result<Loaded, LoadFault>
    ensures ok { IfOk result (ReadsAs config.now octets.old) }
    ensures err { IfErr result (IsNotRead config.now octets.old) }
{
    let old = match read_config(config, octets) {
        Ok(old) => old,
        Err(at) => {
            return Err(LoadFault::Refused {
                kind: StateKind::Config,
                at,
            });
        }
    };
    let opened = match open(alloc, &old) {
        Ok(opened) => opened,
        Err(_) => return Err(LoadFault::OutOfMemory),
    };
    let saved = gateway_of(opened, octets)?;
    match reconfigure(saved, alloc, &old, config) {
        Ok(gateway) => Ok(Loaded { gateway, old }),
        Err(_) => Err(LoadFault::OutOfMemory),
    }
}

/// A gateway that was loaded.
#[derive(Drop)]
pub struct Loaded {
    /// The gateway, whose circuits are configured as they are to be.
    pub gateway: Gateway,
    /// How its circuits were configured when it was saved. Those that are configured otherwise now have begun
    /// as new.
    pub old: GatewayConfig,
}

/// The gateway whose state the octets are, with this configuration. Circuits that were configured so when it
/// was saved go on: they stand after the history of the gateway that was saved. All others begin as new.
///
/// # Errors
///
/// [`LoadFault::OutOfMemory`] if memory was refused; else the first fault in the order of [`StateKind`].
pub fn load_gateway(
    alloc: Global,
    config: &GatewayConfig,
    octets: &[u8],
) -> Result<Loaded, LoadFault>
    ensures loaded { IfOk result (IsLoaded config.now octets.now) }
    ensures err { IfErr result (Refuses config.now octets.now) }
{
    gw_switch::laws::renewals_configure();
    gw_switch::laws::renewals_are_apart();
    let inner = inner_of(octets)?;
    read_gateway(alloc, config, &mut OctetReader::new(inner))
}
