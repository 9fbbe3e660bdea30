//! Codec, unfinished packet and playout of a circuit saved as octets, and loaded.

ghost use Rattle.std.specs.Prelude.{◌≡◌, ◌<◌, ◌≤◌, ◌^◌, ◌++◌, ◌∷◌, [], ℕ, List, length, All};
ghost use Rattle.std.specs.Prelude.{OnOk, IfSome, IfNone, Some, option_map, nat_lt};
ghost use Rattle.std.specs.List.{list_all};
ghost use Rattle.e1_g711.specs.declared.Law.{Law};
ghost use Rattle.g726_codec.specs.declared.CodecKind.{CodecKind};
ghost use Rattle.g726_codec.specs.Kinds.{CodecState, bits_of};
ghost use Rattle.g726_codec.specs.Saved.{CodecFits};
ghost use Rattle.rtp_playout.specs.Calls.{PlayoutCall};
ghost use Rattle.gw_circuit.specs.declared.speech.Speech.{Speech};
ghost use Rattle.gw_circuit.specs.Coding.{PayloadFormat};
ghost use Rattle.gw_circuit.specs.Saved.{kind_number, saved_coding, saved_packet, saved_speech, SpeechFits};
ghost use Rattle.gw_circuit.specs.Speech.{SpeechHistory};

use crate::coder::Coder;
use crate::speech::Speech;
use arrayvec::ArrayVec;
use e1_g711::Law;
use g726_codec::{AnyCodec, CodecKind};
use saved_octets::{OctetReader, append_u8};
use std::alloc::AllocError;

// A codec with its payload type, as it is read.
#[derive(Drop)]
struct Coded {
    kind: CodecKind,
    payload_type: u8,
    codec: AnyCodec,
}

impl Speech {
    // Appends the octets of the speech.
    pub(crate) fn save(&self, out: &mut Vec<u8>) -> Result<(), AllocError>
        ensures octets { OnOk result (out.new.items ≡ out.old.items ++ saved_speech self.now) }
        ensures fits { OnOk result (SpeechFits self.now) }
    {
        let (codec, packet) = self.coder.copy();
        save_coding(self.kind, self.payload_type, &codec, out)?;
        save_packet(&packet, out)?;
        self.playout.save(out)
    }

    // Reads saved speech of this law into this one, with its size of packets and its prefill. None if the
    // octets are not those of speech; then it restarts.
    pub(crate) fn load(&mut self, law: Law, octets: &mut OctetReader<'_>) -> Option<()>
        ensures loaded { (other : Speech) (coding mine : PayloadFormat) (size prefill : ℕ)
            (heard before : List ℕ)
            (calls asked : List PlayoutCall) (rest : List ℕ)
            → SpeechHistory other law coding size prefill heard calls
            → SpeechFits other → SpeechHistory self.old law mine size prefill before asked
            → octets.old ≡ saved_speech other ++ rest
            → (result ≡ Some tt) × (self.new ≡ other) × (octets.new ≡ rest) }
        ensures read { IfSome result (λ done. octets.old ≡ saved_speech self.new ++ octets.new) }
        ensures none { (coding : PayloadFormat) (size prefill : ℕ) (heard : List ℕ) (calls : List PlayoutCall)
            → SpeechHistory self.old law coding size prefill heard calls
            → IfNone result (SpeechHistory self.new law coding size prefill [] []) }
    {
        self.reset();
        let coded = load_coding(law, octets)?;
        let packet = load_packet(self.size, coded.kind.bits(), octets)?;
        self.playout.load(1 << coded.kind.bits(), octets)?;
        self.kind = coded.kind;
        self.payload_type = coded.payload_type;
        self.coder = Coder::of_words(coded.codec, packet);
        Some(())
    }
}

fn kind_number(kind: CodecKind) -> u8
    ensures { result ≡ kind_number kind }
{
    match kind {
        CodecKind::G711 => 0,
        CodecKind::G16 => 1,
        CodecKind::G24 => 2,
        CodecKind::G32 => 3,
        CodecKind::G40 => 4,
    }
}

fn load_kind(octets: &mut OctetReader<'_>) -> Option<CodecKind>
    ensures loaded { (kind : CodecKind) (rest : List ℕ) → octets.old ≡ kind_number kind ∷ rest
        → (result ≡ Some kind) × (octets.new ≡ rest) }
    ensures read { IfSome result (λ kind. octets.old ≡ kind_number kind ∷ octets.new) }
{
    match octets.read_u8()? {
        0 => Some(CodecKind::G711),
        1 => Some(CodecKind::G16),
        2 => Some(CodecKind::G24),
        3 => Some(CodecKind::G32),
        4 => Some(CodecKind::G40),
        _ => None,
    }
}

fn save_coding(
    kind: CodecKind,
    payload_type: u8,
    codec: &AnyCodec,
    out: &mut Vec<u8>,
) -> Result<(), AllocError>
    ensures octets { OnOk result (out.new.items ≡ out.old.items ++ saved_coding kind payload_type codec.now) }
    ensures fits { OnOk result (CodecFits codec.now) }
{
    out.extend_from_slice(&[kind_number(kind), payload_type])?;
    codec.save(out)
}

fn load_coding(law: Law, octets: &mut OctetReader<'_>) -> Option<Coded>
    ensures loaded { (kind : CodecKind) (payload_type : ℕ) (codec : CodecState) (rest : List ℕ)
        → payload_type < 128 → codec.law ≡ law → codec.kind ≡ kind → CodecFits codec
        → octets.old ≡ saved_coding kind payload_type codec ++ rest
        → (result ≡ Some (record { kind = kind; payload_type = payload_type; codec = codec }))
        × (octets.new ≡ rest) }
    ensures read { IfSome result (λ c. octets.old
        ≡ saved_coding c.kind c.payload_type c.codec ++ octets.new) }
    ensures kind { IfSome result (λ c. c.codec.kind ≡ c.kind) }
    ensures fits { IfSome result (λ c. c.payload_type < 128) }
{
    let kind = load_kind(octets)?;
    let payload_type = load_payload_type(octets)?;
    let codec = AnyCodec::load(law, kind, octets)?;
    Some(Coded {
        kind,
        payload_type,
        codec,
    })
}

fn load_payload_type(octets: &mut OctetReader<'_>) -> Option<u8>
    ensures loaded { (payload_type : ℕ) (rest : List ℕ) → payload_type < 128
        → octets.old ≡ payload_type ∷ rest → (result ≡ Some payload_type) × (octets.new ≡ rest) }
    ensures read { IfSome result (λ payload_type. octets.old ≡ payload_type ∷ octets.new) }
    ensures fits { IfSome result (λ payload_type. payload_type < 128) }
{
    let payload_type = octets.read_u8()?;
    if payload_type < 128 {
        Some(payload_type)
    } else {
        None
    }
}

fn save_packet(packet: &ArrayVec<u8, 240>, out: &mut Vec<u8>) -> Result<(), AllocError>
    ensures { OnOk result (out.new.items ≡ out.old.items ++ saved_packet packet.now.items) }
{
    append_u8(out, packet.len() as u8)?;
    out.extend_from_slice(packet.as_slice())
}

// Reads the words of a packet that is not full, each of this many bits.
fn load_packet(size: u8, bits: u8, octets: &mut OctetReader<'_>) -> Option<ArrayVec<u8, 240>>
    requires size { size ≤ 240 }
    requires bits { bits ≤ 8 }
    ensures loaded { (words rest : List ℕ) → length words < size → All (λ w. w < 2 ^ bits) words
        → octets.old ≡ saved_packet words ++ rest
        → (option_map (λ p. p.items) result ≡ Some words) × (octets.new ≡ rest) }
    ensures read { IfSome result (λ packet. octets.old ≡ saved_packet packet.items ++ octets.new) }
    ensures room { IfSome result (λ packet. length packet.items < size) }
    ensures words { IfSome result (λ packet. All (λ w. w < 2 ^ bits) packet.items) }
{
    let count = octets.read_u8()?;
    if count >= size {
        return None;
    }
    let words = octets.read_slice(usize::from(count))?;
    if !are_words(words, 1 << bits) {
        return None;
    }
    let mut packet = ArrayVec::new();
    packet.try_extend_from_slice(words).ok()?;
    Some(packet)
}

// Whether each of these is below the bound.
fn are_words(words: &[u8], bound: u16) -> bool
    ensures { result ≡ list_all (λ w. nat_lt w bound) words.now }
{
    words.iter().all(|word| u16::from(*word) < bound)
}
