//! What the command line asks of an emulated circuit (`circuit_asked`).

ghost use Rattle.std.specs.Prelude.{◌≤◌};

use gw_command::SatopOptions;
use gw_report::ProgramFault;
use gw_satop::Timing;
use satop_playout::{FRAME, Settings};

/// What the command line asks of an emulated circuit.
#[derive(Clone, Copy)]
pub(crate) struct CircuitAsked {
    pub(crate) settings: Settings,
    pub(crate) timing: Timing,
    pub(crate) rtp: Option<u8>,
    pub(crate) sequence: Option<u16>,
}

// How many SAToP packets may wait: the jitter's, at least 125 ms.
fn window_for(jitter: u16, size: u16) -> usize
    ensures least { 1 ≤ result }
    ensures most { result ≤ 1024 }
{
    let least = 32_000 / usize::from(size).max(FRAME);
    (2 * usize::from(jitter)).max(least).max(1).min(1_024)
}

/// The emulated circuit that the options ask for.
///
/// # Errors
///
/// [`ProgramFault::PacketSize`] if the size is no size of a packet.
pub(crate) fn circuit_asked(options: &SatopOptions<'_>) -> Result<CircuitAsked, ProgramFault> {
    let window = window_for(options.jitter, options.size);
    let Some(settings) = Settings::new(usize::from(options.size), window, options.fill) else {
        return Err(ProgramFault::PacketSize(options.size));
    };
    let frames = (settings.size / FRAME) as u64;
    Ok(CircuitAsked {
        settings,
        timing: Timing::new(frames, options.jitter, options.own_clock),
        rtp: options.rtp,
        sequence: options.sequence,
    })
}
