//! The octets of a gateway's state, with their SHA-256 at the end (`state_file`).

ghost use Rattle.std.specs.Prelude.{◌≡◌, IfOk, OnErr, OnOk, ◌++◌};
ghost use Rattle.sha2.specs.Sha256.{sha256};
ghost use Rattle.gw_switch.specs.Saved.{GatewayFits};
ghost use Rattle.gw_state.specs.Layout.{summed, state_file};
ghost use Rattle.gw_state.specs.Memory.{MemoryIsRefused};

use crate::head::state_head;
use gw_switch::{Gateway, GatewayConfig};
use sha2::{Digest, Sha256};
use std::alloc::{AllocError, Global};

// Appends the checksum of the octets.
fn append_sum(octets: &mut Vec<u8>) -> Result<(), AllocError>
    ensures { OnOk result (octets.new.items ≡ summed octets.old.items) }
{
    let sum: [u8; 32] = Sha256::digest(octets.as_slice());
    octets.extend_from_slice(&sum)
}

/// The file of the state of a gateway of this configuration: `E1GS`, the version 1, the configuration, the
/// trunk, the circuits 1 to 30, and the SHA-256 (FIPS 180-4) of all before it. The error is that memory was
/// refused.
#[tactic(auto, unfolding(crate::specs::Layout::state_file, crate::specs::Memory::MemoryIsRefused))]
pub fn state_file(
    alloc: Global,
    config: &GatewayConfig,
    gateway: &Gateway,
) -> Result<Vec<u8>, AllocError>
    ensures octets { IfOk result (λ file. file.items ≡ state_file config.now gateway.now) }
    ensures fits { IfOk result (λ file. GatewayFits gateway.now) }
    ensures err { OnErr result MemoryIsRefused }
{
    let mut file = state_head(alloc, config)?;
    gateway.save(&mut file)?;
    append_sum(&mut file)?;
    Ok(file)
}
