//! The gateway whose state is in the octets of a file (`loaded_of`).

ghost use Rattle.std.specs.Prelude.{◌≡◌, IfOk, true, false};
ghost use Rattle.gw_log.specs.State.{IsCheckpoint, IsStateIn, WasLoaded};

use gw_state::{LoadFault, Loaded, load_gateway};
use gw_switch::GatewayConfig;
use std::alloc::Global;

// No state is as long: the longest has some 220,000 octets.
const MOST_OCTETS: usize = 1_048_576;

// The octets of a checkpoint before its state: the mark and the place.
const HEAD_LEN: usize = 12;

// Whether octets begin as a checkpoint: with the letters E1GC and a place.
fn is_checkpoint(octets: &[u8]) -> bool
    ensures yes { result ≡ true → IsCheckpoint octets.now }
    ensures no { result ≡ false → ¬ IsCheckpoint octets.now }
{
    octets.len() >= HEAD_LEN && octets[..4] == [0x45, 0x31, 0x47, 0x43]
}

// The state in the octets of a file: behind the place of a checkpoint, or all.
fn state_in(octets: &[u8]) -> &[u8]
    ensures { IsStateIn octets.now result.now }
{
    if is_checkpoint(octets) {
        &octets[HEAD_LEN..]
    } else {
        octets
    }
}

/// Why no gateway goes on from the file of a state, or from a log.
#[derive(Clone, Copy, Debug, PartialEq, Eq)]
pub enum ResumeFault {
    /// Memory was refused.
    OutOfMemory,
    /// The file has more octets than any state.
    TooLong,
    /// The files of the log have nothing that can be loaded, and are not new.
    Damaged,
    /// The octets are no state of this configuration.
    State(LoadFault),
}

// The fault if octets are not loaded.
pub(crate) fn load_trouble(fault: LoadFault) -> ResumeFault {
    match fault {
        LoadFault::OutOfMemory => ResumeFault::OutOfMemory,
        LoadFault::Refused { .. } => ResumeFault::State(fault),
    }
}

/// The gateway whose state is in the octets of a file, which may be a checkpoint. It has the history of the
/// gateway that was saved.
///
/// # Errors
///
/// [`ResumeFault::TooLong`], [`ResumeFault::State`], [`ResumeFault::OutOfMemory`].
pub fn loaded_of(
    alloc: Global,
    config: &GatewayConfig,
    octets: &[u8],
) -> Result<Loaded, ResumeFault>
    ensures { IfOk result (WasLoaded octets.now config.now) }
{
    if octets.len() > MOST_OCTETS {
        return Err(ResumeFault::TooLong);
    }
    match load_gateway(alloc, config, state_in(octets)) {
        Ok(loaded) => Ok(loaded),
        Err(fault) => Err(load_trouble(fault)),
    }
}
