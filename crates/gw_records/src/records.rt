//! Whether octets begin with a whole and valid record: kind, circuit, length (`first_record`).
ghost use Rattle.std.specs.Prelude.{◌≡◌, ◌≢◌, ◌+◌, ◌<◌, ◌≤◌, ◌^◌, ◌∷◌};
ghost use Rattle.std.specs.Prelude.{false, length, slice_index, Some, SomeIff, IfOk, IfErr};
ghost use Rattle.gw_records.specs.Records.{IsCircuit, IsFirst, head_of, end_of, body_len, code_record};
ghost use Rattle.gw_records.specs.Records.{packet_record};
ghost use Rattle.byteorder.specs.Endian.{big_bytes};
ghost use Rattle.gw_records.specs.Records.{has_bad_kind, has_bad_circuit, has_bad_length, has_bad_command};

use crate::octets::{codec_of, command_of};
use arrayvec::ArrayVec;
use byteorder::{BigEndian, ByteOrder};
use g704_cas::CircuitNo;
use g726_codec::CodecKind;
use q421_line::Cmd;

/// The octets before the body of a record.
pub const FRONT_LEN: usize = 4;

/// Octets of the trunk.
pub const TRUNK: u8 = 0x54;
/// A datagram of a circuit.
pub const DATAGRAM: u8 = 0x44;
/// A command for a circuit.
pub const COMMAND: u8 = 0x43;
/// A codec for a circuit.
pub const CODEC: u8 = 0x4B;
// The answer to a record that is not of the trunk.
const ANSWER: u8 = 0x52;

/// The kinds of record that are accepted.
#[derive(Clone, Copy, Debug, PartialEq, Eq)]
pub struct AcceptedKinds {
    pub trunk: bool,
    pub datagrams: bool,
    pub commands: bool,
    pub codecs: bool,
}

/// The end of records.
#[derive(Clone, Copy, Debug, PartialEq, Eq)]
pub enum RecordsEnd {
    End,
    BadKind,
    BadCircuit,
    BadCommand,
    Truncated,
}

/// A record without the octets of its body.
#[derive(Clone, Copy, Debug, PartialEq, Eq)]
pub enum RecordHead {
    Trunk,
    Datagram(CircuitNo),
    Command(CircuitNo, Cmd),
    Codec(CircuitNo, CodecKind, u8),
}

/// A whole first record, and its length.
#[derive(Clone, Copy, Debug, PartialEq, Eq)]
pub struct FirstRecord {
    pub head: RecordHead,
    pub len: usize,
}

// The length of the body.
fn body_len(held: &[u8]) -> usize
    requires { 4 ≤ length held.now }
    ensures value { result ≡ body_len held.now }
    ensures bound { result < 2 ^ 16 }
{
    usize::from(BigEndian::read_u16(&held[2..]))
}

#[tactic(auto, unfolding(crate::specs::Records::has_bad_kind))]
fn has_bad_kind(kinds: &AcceptedKinds, held: &[u8]) -> bool
    requires { 4 ≤ length held.now }
    ensures { result ≡ has_bad_kind kinds.now held.now }
{
    match held[0] {
        TRUNK => !kinds.trunk,
        DATAGRAM => !kinds.datagrams,
        COMMAND => !kinds.commands,
        CODEC => !kinds.codecs,
        _ => true,
    }
}

#[tactic(auto, unfolding(crate::specs::Records::has_bad_circuit))]
fn has_bad_circuit(held: &[u8]) -> bool
    requires { 4 ≤ length held.now }
    ensures { result ≡ has_bad_circuit held.now }
{
    let circuit = held[1];
    if held[0] == TRUNK {
        circuit != 0
    } else {
        CircuitNo::new(circuit).is_none()
    }
}

#[tactic(auto, unfolding(crate::specs::Records::has_bad_length))]
fn has_bad_length(held: &[u8]) -> bool
    requires { 4 ≤ length held.now }
    ensures { result ≡ has_bad_length held.now }
{
    match held[0] {
        COMMAND => body_len(held) != 1,
        CODEC => body_len(held) != 2,
        _ => false,
    }
}

// The head of a whole record's first octets; `None` for an unknown command or codec.
#[tactic(auto, unfolding(crate::specs::Records::has_bad_command, crate::specs::Records::head_of))]
fn head_of(held: &[u8]) -> Option<RecordHead>
    requires kind { slice_index held.now 0 ≢ 0x54 → slice_index held.now 0 ≢ 0x44
        → slice_index held.now 0 ≢ 0x43 → slice_index held.now 0 ≡ 0x4B }
    requires circuit { slice_index held.now 0 ≢ 0x54 → IsCircuit (slice_index held.now 1) }
    requires command { slice_index held.now 0 ≡ 0x43 → body_len held.now ≡ 1 }
    requires codec { slice_index held.now 0 ≡ 0x4B → body_len held.now ≡ 2 }
    requires whole { 4 + body_len held.now ≤ length held.now }
    ensures { SomeIff result (has_bad_command held.now ≡ false) (head_of held.now) }
{
    match held[0] {
        TRUNK => Some(RecordHead::Trunk),
        DATAGRAM => Some(RecordHead::Datagram(CircuitNo::new(held[1])?)),
        COMMAND => Some(RecordHead::Command(CircuitNo::new(held[1])?, command_of(held[4])?)),
        _ if held[5] > 127 => None,
        _ => Some(RecordHead::Codec(CircuitNo::new(held[1])?, codec_of(held[4])?, held[5])),
    }
}

/// The valid whole record that is first, or how the octets end.
///
/// It is inlined, so that a session that accepts one kind tests for no other.
#[inline(always)]
#[tactic(auto, unfolding(crate::specs::Records::end_of, crate::specs::Records::is_cut))]
pub fn first_record(kinds: &AcceptedKinds, held: &[u8]) -> Result<FirstRecord, RecordsEnd>
    ensures good { IfOk result (λ f. IsFirst kinds.now f held.now) }
    ensures end { IfErr result (λ e. end_of kinds.now held.now ≡ Some e) }
{
    if held.is_empty() {
        return Err(RecordsEnd::End);
    }
    if held.len() < 4 {
        return Err(RecordsEnd::Truncated);
    }
    if has_bad_kind(kinds, held) {
        return Err(RecordsEnd::BadKind);
    }
    if has_bad_circuit(held) {
        return Err(RecordsEnd::BadCircuit);
    }
    if has_bad_length(held) {
        return Err(RecordsEnd::BadCommand);
    }
    let len = 4 + body_len(held);
    if held.len() < len {
        return Err(RecordsEnd::Truncated);
    }
    let head = head_of(held).ok_or(RecordsEnd::BadCommand)?;
    Ok(FirstRecord { head, len })
}

/// The front of a record of this kind, with a body of so many octets.
pub fn front_of(kind: u8, circuit: u8, len: usize) -> [u8; 4]
    requires { len < 2 ^ 16 }
    ensures { result ≡ kind ∷ circuit ∷ big_bytes 2 len }
{
    let mut front = [kind, circuit, 0, 0];
    BigEndian::write_u16(&mut front[2..4], len as u16);
    front
}

/// The record of 0 or the number of a refusal, which answers a record of this kind.
pub fn code_record(circuit: CircuitNo, kind: u8, code: u8) -> [u8; 6]
    ensures { result ≡ code_record circuit kind code }
{
    [ANSWER, circuit.get(), 0, 2, kind, code]
}

/// The record of a datagram sent.
pub fn datagram_record(circuit: u8, datagram: &[u8]) -> ArrayVec<u8, 256>
    requires { length datagram.now ≤ 252 }
    ensures { result.items ≡ packet_record circuit datagram.now }
{
    let mut record: ArrayVec<u8, 256> = ArrayVec::new();
    let _ = record.try_extend_from_slice(&front_of(DATAGRAM, circuit, datagram.len()));
    let _ = record.try_extend_from_slice(datagram);
    record
}
