//! The octets of a checkpoint: the letters E1GC, a place, and the state of a gateway (`checkpoint_of`).

ghost use Rattle.std.specs.Prelude.{◌≡◌, ◌++◌, IfOk, OnErr};
ghost use Rattle.byteorder.specs.Endian.{big_bytes};
ghost use Rattle.gw_switch.specs.Saved.{GatewayFits};
ghost use Rattle.gw_state.specs.Layout.{state_file};
ghost use Rattle.gw_state.specs.Memory.{MemoryIsRefused};
ghost use Rattle.gw_log.specs.Checkpoints.{checkpoint, checkpoint_mark, checkpoint_place};

use byteorder::{BigEndian, ByteOrder};
use gw_state::state_file;
use gw_switch::{Gateway, GatewayConfig};
use std::alloc::{AllocError, Global};

// The octets before the state: the mark and the place.
const HEAD_LEN: usize = 12;

// The octets of a checkpoint before its state.
fn checkpoint_head(place: u64) -> [u8; HEAD_LEN]
    ensures { result ≡ checkpoint_mark ++ big_bytes 8 place }
{
    let mut head = [0x45, 0x31, 0x47, 0x43, 0, 0, 0, 0, 0, 0, 0, 0];
    BigEndian::write_u64(&mut head[4..], place);
    head
}

// The place of a checkpoint; 0 of what is none.
pub(crate) fn checkpoint_place(octets: &[u8]) -> u64
    ensures { result ≡ checkpoint_place octets.now }
{
    if octets.len() < HEAD_LEN {
        return 0;
    }
    BigEndian::read_u64(&octets[4..HEAD_LEN])
}

// The octets of a checkpoint. The error is that memory was refused.
#[tactic(auto, unfolding(gw_state::specs::Memory::MemoryIsRefused, crate::specs::Checkpoints::checkpoint))]
pub(crate) fn checkpoint_of(
    alloc: Global,
    config: &GatewayConfig,
    gateway: &Gateway,
    place: u64,
) -> Result<Vec<u8>, AllocError>
    ensures octets { IfOk result (λ octets. octets.items
        ≡ checkpoint place (state_file config.now gateway.now)) }
    ensures fits { IfOk result (λ octets. GatewayFits gateway.now) }
    ensures err { OnErr result MemoryIsRefused }
{
    let mut octets = Vec::new(alloc);
    octets.extend_from_slice(&checkpoint_head(place))?;
    octets.extend_from_slice(state_file(alloc, config, gateway)?.as_slice())?;
    Ok(octets)
}
