//! Whether the configuration in a state's octets is one of thirty circuits, and its values.

ghost use Rattle.std.specs.Prelude.{◌≡◌, ◌<◌, ◌^◌, ◌++◌, ◌∷◌, ℕ, List, IfSome, OnOk, IfErr, Some, Ok, All};
ghost use Rattle.std.specs.Prelude.{flat_map, length, true};
ghost use Rattle.saved_octets.specs.Numbers.{two_octets};
ghost use Rattle.q421_line.specs.declared.Role.{Role};
ghost use Rattle.g726_codec.specs.declared.CodecKind.{CodecKind};
ghost use Rattle.gw_circuit.specs.declared.config.CircuitConfig as settings;
ghost use Rattle.gw_circuit.specs.Saved.{kind_number};
ghost use Rattle.gw_state.specs.Layout.{role_octet, saved_start, saved_settings, SettingsFit};
ghost use Rattle.gw_state.specs.Faults.{HasNoSettings};

use g726_codec::CodecKind;
use gw_circuit::CircuitConfig;
use q421_line::Role;
use saved_octets::OctetReader;

const CIRCUITS: u8 = 30;

// What a circuit sends at first.
#[derive(Clone, Copy, Debug)]
struct Start {
    ssrc: u32,
    sequence: u16,
    timestamp: u32,
}

fn read_role(octets: &mut OctetReader<'_>) -> Option<Role>
    ensures next { (role : Role) (rest : List ℕ) → octets.old ≡ role_octet role ∷ rest
        → (result ≡ Some role) × (octets.new ≡ rest) }
    ensures read { IfSome result (λ role. octets.old ≡ role_octet role ∷ octets.new) }
{
    match octets.read_u8()? {
        0 => Some(Role::Outgoing),
        1 => Some(Role::Incoming),
        _ => None,
    }
}

fn read_kind(octets: &mut OctetReader<'_>) -> Option<CodecKind>
    ensures next { (kind : CodecKind) (rest : List ℕ) → octets.old ≡ kind_number kind ∷ rest
        → (result ≡ Some kind) × (octets.new ≡ rest) }
    ensures read { IfSome result (λ kind. octets.old ≡ kind_number kind ∷ octets.new) }
{
    match octets.read_u8()? {
        0 => Some(CodecKind::G711),
        1 => Some(CodecKind::G16),
        2 => Some(CodecKind::G24),
        3 => Some(CodecKind::G32),
        4 => Some(CodecKind::G40),
        _ => None,
    }
}

fn read_start(octets: &mut OctetReader<'_>) -> Option<Start>
    ensures next { (ssrc sequence timestamp : ℕ) (rest : List ℕ) → ssrc < 2 ^ 32 → sequence < 2 ^ 16
        → timestamp < 2 ^ 32 → octets.old ≡ saved_start ssrc sequence timestamp ++ rest
        → (result ≡ Some (record { ssrc = ssrc; sequence = sequence; timestamp = timestamp }))
        × (octets.new ≡ rest) }
    ensures read { IfSome result (λ s. octets.old ≡ saved_start s.ssrc s.sequence s.timestamp ++ octets.new) }
{
    let ssrc = octets.read_u32()?;
    let sequence = octets.read_u16()?;
    let timestamp = octets.read_u32()?;
    Some(Start {
        ssrc,
        sequence,
        timestamp,
    })
}

// The line and the codec of a circuit, and how long its packets last.
#[derive(Clone, Copy, Debug)]
struct Coding {
    role: Role,
    kind: CodecKind,
    payload_type: u8,
    ptime: u8,
}

fn read_coding(octets: &mut OctetReader<'_>) -> Option<Coding>
    ensures next { (role : Role) (kind : CodecKind) (type ptime : ℕ) (rest : List ℕ)
        → octets.old ≡ role_octet role ∷ kind_number kind ∷ type ∷ ptime ∷ rest
        → (result ≡ Some (record { role = role; kind = kind; payload_type = type; ptime = ptime }))
        × (octets.new ≡ rest) }
    ensures read { IfSome result (λ c. octets.old
        ≡ role_octet c.role ∷ kind_number c.kind ∷ c.payload_type ∷ c.ptime ∷ octets.new) }
{
    let role = read_role(octets)?;
    let kind = read_kind(octets)?;
    let payload_type = octets.read_u8()?;
    let ptime = octets.read_u8()?;
    Some(Coding {
        role,
        kind,
        payload_type,
        ptime,
    })
}

// How many samples the playout waits, and what the circuit sends at first.
fn read_numbers(octets: &mut OctetReader<'_>) -> Option<(u16, Start)>
    ensures next { (prefill ssrc sequence timestamp : ℕ) (rest : List ℕ) → prefill < 2 ^ 16 → ssrc < 2 ^ 32
        → sequence < 2 ^ 16 → timestamp < 2 ^ 32
        → octets.old ≡ two_octets prefill ++ (saved_start ssrc sequence timestamp ++ rest)
        → (result ≡ Some (prefill, record { ssrc = ssrc; sequence = sequence; timestamp = timestamp }))
        × (octets.new ≡ rest) }
    ensures read { IfSome result (λ n. octets.old
        ≡ two_octets n.0 ++ (saved_start n.1.ssrc n.1.sequence n.1.timestamp ++ octets.new)) }
{
    let prefill = octets.read_u16()?;
    let start = read_start(octets)?;
    Some((prefill, start))
}

// Reads a circuit's configuration; None if the octets are not one.
#[tactic(auto, unfolding(crate::specs::Layout::saved_settings))]
fn read_settings(octets: &mut OctetReader<'_>) -> Option<CircuitConfig>
    ensures next { (c : settings.CircuitConfig) (rest : List ℕ) → SettingsFit c
        → octets.old ≡ saved_settings c ++ rest → (result ≡ Some c) × (octets.new ≡ rest) }
    ensures read { IfSome result (λ c. octets.old ≡ saved_settings c ++ octets.new) }
    ensures fits { IfSome result SettingsFit }
{
    let coding = read_coding(octets)?;
    let (prefill, start) = read_numbers(octets)?;
    CircuitConfig::new(
        coding.role,
        coding.kind,
        coding.payload_type,
        coding.ptime,
        prefill,
        start.ssrc,
        start.sequence,
        start.timestamp,
    )
}

// How a circuit is set up, and that the octets are those of one; else the other one, and false.
fn read_or(other: &CircuitConfig, octets: &mut OctetReader<'_>) -> (CircuitConfig, bool)
    ensures next { (c : settings.CircuitConfig) (rest : List ℕ) → SettingsFit c
        → octets.old ≡ saved_settings c ++ rest
        → (result.0 ≡ c) × (result.1 ≡ true) × (octets.new ≡ rest) }
    ensures read { result.1 ≡ true → octets.old ≡ saved_settings result.0 ++ octets.new }
    ensures fits { result.1 ≡ true → SettingsFit result.0 }
{
    match read_settings(octets) {
        Some(read) => (read, true),
        None => (*other, false),
    }
}

// Reads the configurations of thirty circuits into these. The error is the number of the first one whose
// octets are those of no circuit.
pub(crate) fn read_circuits(
    circuits: &mut [CircuitConfig; 30],
    octets: &mut OctetReader<'_>,
) -> Result<(), u8>
    ensures next { (saved : List settings.CircuitConfig) (rest : List ℕ) → length saved ≡ 30
        → All SettingsFit saved → octets.old ≡ flat_map saved_settings saved ++ rest
        → (result ≡ Ok tt) × (circuits.new ≡ saved) × (octets.new ≡ rest) }
    ensures read { OnOk result (octets.old ≡ flat_map saved_settings circuits.new ++ octets.new) }
    ensures fits { OnOk result (All SettingsFit circuits.new) }
    ensures err { IfErr result (HasNoSettings octets.old) }
{
    for number in 0..CIRCUITS {
        let at = usize::from(number);
        let (read, is_read) = read_or(&circuits[at], octets);
        if !is_read {
            return Err(number + 1);
        }
        circuits[at] = read;
    }
    Ok(())
}
