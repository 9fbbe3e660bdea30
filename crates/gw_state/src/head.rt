//! The octets of a state before its gateway: mark, version, configuration (`state_head`).

ghost use Rattle.std.specs.Prelude.{◌≡◌, ◌+◌, ◌++◌, ◌∷◌, [], OnOk, IfOk, flat_map, length};
ghost use Rattle.gw_state.specs.Layout.{law_octet, role_octet, saved_start, saved_settings, state_head};
ghost use Rattle.gw_circuit.specs.Saved.{kind_number};

use e1_g711::Law;
use g726_codec::CodecKind;
use gw_circuit::CircuitConfig;
use gw_switch::GatewayConfig;
use q421_line::Role;
use saved_octets::{append_u8, append_u16, append_u32};
use std::alloc::{AllocError, Global};

// The letters E1GS and the version.
const MARK: [u8; 5] = [0x45, 0x31, 0x47, 0x53, 1];

pub(crate) fn law_octet(law: Law) -> u8
    ensures { result ≡ law_octet law }
{
    match law {
        Law::A => 0,
        Law::Mu => 1,
    }
}

fn role_octet(role: Role) -> u8
    ensures { result ≡ role_octet role }
{
    match role {
        Role::Outgoing => 0,
        Role::Incoming => 1,
    }
}

fn kind_number(codec: CodecKind) -> u8
    ensures { result ≡ kind_number codec }
{
    match codec {
        CodecKind::G711 => 0,
        CodecKind::G16 => 1,
        CodecKind::G24 => 2,
        CodecKind::G32 => 3,
        CodecKind::G40 => 4,
    }
}

// Appends the SSRC, sequence number and timestamp a circuit begins with.
fn append_start(out: &mut Vec<u8>, circuit: &CircuitConfig) -> Result<(), AllocError>
    ensures { OnOk result (out.new.items
        ≡ out.old.items ++ saved_start circuit.now.ssrc circuit.now.sequence circuit.now.timestamp) }
{
    append_u32(out, circuit.ssrc)?;
    append_u16(out, circuit.sequence)?;
    append_u32(out, circuit.timestamp)
}

// Appends the octets of a circuit's configuration.
#[tactic(auto, unfolding(crate::specs::Layout::saved_settings))]
fn append_settings(out: &mut Vec<u8>, circuit: &CircuitConfig) -> Result<(), AllocError>
    ensures { OnOk result (out.new.items ≡ out.old.items ++ saved_settings circuit.now) }
{
    let first = [
        role_octet(circuit.role),
        kind_number(circuit.codec),
        circuit.payload_type,
        circuit.ptime,
    ];
    out.extend_from_slice(&first)?;
    append_u16(out, circuit.prefill)?;
    append_start(out, circuit)
}

fn append_all(out: &mut Vec<u8>, circuits: &[CircuitConfig; 30]) -> Result<(), AllocError>
    ensures octets { OnOk result (out.new.items ≡ out.old.items ++ flat_map saved_settings circuits.now) }
    ensures len { OnOk result (length out.new.items ≡ length out.old.items + 480) }
{
    for circuit in circuits.iter() {
        append_settings(out, circuit)?;
    }
    Ok(())
}

// The octets before the gateway: mark, version and configuration.
#[tactic(auto, unfolding(crate::specs::Layout::state_head))]
pub(crate) fn state_head(alloc: Global, config: &GatewayConfig) -> Result<Vec<u8>, AllocError>
    ensures octets { IfOk result (λ head. head.items ≡ state_head config.now) }
    ensures len { IfOk result (λ head. length head.items ≡ 486) }
{
    let mut head = Vec::new(alloc);
    head.extend_from_slice(&MARK)?;
    append_u8(&mut head, law_octet(config.law))?;
    append_all(&mut head, &config.circuits)?;
    Ok(head)
}
