//! Speech cut into packets and the last one filled, as records of datagrams (`encode_stream`).
ghost use Rattle.std.specs.Prelude.{◌≡◌, ◌+◌, ◌-◌, ◌*◌, ◌^◌, ◌<◌, ◌≤◌, ◌++◌};
ghost use Rattle.std.specs.Prelude.{ℕ, List, [], length, take, IfOk, OnOk, IfErr};
ghost use Rattle.std.specs.List.{All};
ghost use Rattle.rtp_pack.specs.Payload.{IsPayload};
ghost use Rattle.gw_records.specs.Streams.{CanBegin, CanCount, HadRoom, Puts, Writes};
ghost use Rattle.gw_speech.specs.Encode.{packet_len, word_bits, header_at, packet_record};
ghost use Rattle.gw_speech.specs.Encode.{records_from, full_packets, filled, Encodes, EncodesUntil};
ghost use Rattle.gw_speech.specs.Encode.{header_with, IsPacket, IsEncoding};
ghost use Rattle.gw_speech.specs.declared.stream_spec.StreamSpec.{StreamSpec};

use crate::coding::{encode_all, word_bits};
use crate::stream_spec::StreamSpec;
use arrayvec::ArrayVec;
use e1_g711::idle;
use g726_codec::AnyCodec;
use gw_records::{
    MAX_READS, NO_TOTALS, OutputBuffer, RunFault, Sink, Source, Totals, datagram_record, flush,
    put, read_behind,
};
use rtp_packet::{Header, packetise};

// Room for a read of 32 KiB behind an incomplete packet of fewer than 240 octets.
const SPEECH_LEN: usize = 33_008;

const SAMPLES_IN_MS: usize = 8;

const CIRCUIT: u8 = 1;

// The sequence number and timestamp of the next packet, and the number of packets before it, which saturates.
#[derive(Clone, Copy, Debug, PartialEq, Eq)]
struct NextPacket {
    sequence: u16,
    timestamp: u32,
    datagrams: u64,
}

// The samples of a packet.
fn packet_len(spec: &StreamSpec) -> usize
    ensures value { result ≡ packet_len spec.now }
    ensures least { 0 < result }
    ensures most { result ≤ 240 }
{
    usize::from(spec.ptime) * SAMPLES_IN_MS
}

// The state before the first packet of a stream of speech.
fn first_packet(sequence: u16, timestamp: u32) -> NextPacket
    ensures { (s : StreamSpec) → s.sequence ≡ sequence → s.timestamp ≡ timestamp → IsPacket s result 0 }
{
    NextPacket {
        sequence,
        timestamp,
        datagrams: 0,
    }
}

// The numbers of the packet after this one.
#[tactic(auto, unfolding(crate::specs::Encode::header_at))]
fn next_packet(spec: &StreamSpec, progress: &NextPacket) -> NextPacket
    ensures { (k : ℕ) → IsPacket spec.now progress.now k → IsPacket spec.now result (k + 1) }
{
    NextPacket {
        sequence: progress.sequence.wrapping_add(1),
        timestamp: progress.timestamp.wrapping_add(packet_len(spec) as u32),
        datagrams: progress.datagrams.saturating_add(1),
    }
}

// The record of a packet's datagram.
#[tactic(auto, unfolding(crate::specs::Encode::packet_record))]
fn packet_record(spec: &StreamSpec, progress: &NextPacket, words: &[u8]) -> ArrayVec<u8, 256>
    requires { IsPayload (word_bits spec.now) words.now }
    ensures { result.items ≡ packet_record spec.now (header_with spec.now progress.now) words.now }
{
    let header = Header {
        payload_type: spec.payload_type,
        sequence: progress.sequence,
        timestamp: progress.timestamp,
        ssrc: spec.ssrc,
    };
    let mut datagram: ArrayVec<u8, 252> = ArrayVec::new();
    packetise(&header, word_bits(spec), words, &mut datagram);
    datagram_record(CIRCUIT, datagram.as_slice())
}

// Adds the record of a packet to the output.
fn put_packet<K: Sink>(
    spec: &StreamSpec,
    progress: &NextPacket,
    words: &[u8],
    waiting: &mut OutputBuffer,
    sink: &mut K,
) -> Result<(), RunFault>
    requires len { length words.now ≡ packet_len spec.now }
    requires fit { All (λ w. w < 2 ^ word_bits spec.now) words.now }
    requires writes { CanCount (K.tells sink.old).failures }
    ensures { Puts (K.tells sink.old) (K.tells sink.new) waiting.new.items
        (waiting.old.items ++ packet_record spec.now (header_with spec.now progress.now) words.now) result }
{
    put(
        sink,
        waiting,
        packet_record(spec, progress, words).as_slice(),
    )
}

// Writes the records of full packets.
//
// Returns how many words are left.
fn write_packets<K: Sink>(
    spec: &StreamSpec,
    progress: &mut NextPacket,
    words: &[u8],
    waiting: &mut OutputBuffer,
    sink: &mut K,
) -> Result<usize, RunFault>
    requires fit { All (λ w. w < 2 ^ word_bits spec.now) words.now }
    requires empty { waiting.old.items ≡ [] }
    requires writes { CanCount (K.tells sink.old).failures }
    ensures left { IfOk result (λ left. (left < packet_len spec.now)
        × (length words.now ≡ packet_len spec.now * full_packets spec.now words.now + left)) }
    ensures writes { (k : ℕ) → IsPacket spec.now progress.old k
        → Writes (K.tells sink.old) (K.tells sink.new)
        (records_from spec.now k words.now (full_packets spec.now words.now)) result }
    ensures next { (k : ℕ) → IsPacket spec.now progress.old k
        → OnOk result (IsPacket spec.now progress.new (k + full_packets spec.now words.now)) }
    ensures empty { OnOk result (waiting.new.items ≡ []) }
{
    let len = packet_len(spec);
    let mut rest = words;
    'packets: while rest.len() >= len {
        let (packet, others) = rest.split_at(len);
        put_packet(spec, progress, packet, waiting, sink)?;
        *progress = next_packet(spec, progress);
        rest = others;
    }
    flush(sink, waiting)?;
    Ok(rest.len())
}

// How many words there are once the last packet is filled: none, or a packet.
fn filled_len(spec: &StreamSpec, held: usize) -> usize
    requires open { held < packet_len spec.now }
    ensures none { held ≡ 0 → result ≡ 0 }
    ensures one { 0 < held → result ≡ packet_len spec.now }
    ensures least { held ≤ result }
    ensures most { result ≤ 240 }
{
    if held == 0 { 0 } else { packet_len(spec) }
}

// Fills the last packet with idle octets, coded behind the present words.
//
// Returns how many words there are.
fn fill_last(spec: &StreamSpec, codec: &mut AnyCodec, speech: &mut [u8], held: usize) -> usize
    requires kind { codec.old.kind ≡ spec.now.codec }
    requires open { held < packet_len spec.now }
    requires room { 240 ≤ length speech.old }
    requires fit { All (λ w. w < 2 ^ word_bits spec.now) (take held speech.old) }
    ensures within { result ≤ length speech.new }
    ensures fit { All (λ w. w < 2 ^ word_bits spec.now) (take result speech.new) }
    ensures filled { (given sent : List ℕ) (count : ℕ)
        → IsEncoding spec.now codec.old given sent count (take held speech.old)
        → IsEncoding spec.now codec.new (filled spec.now given) sent count (take result speech.new) }
{
    g726_codec::laws::words_are_counted();
    let end = filled_len(spec, held);
    speech[held..end].fill(idle(spec.law));
    encode_all(spec, codec, &mut speech[held..end]);
    end
}

/// Writes speech as RTP datagrams in D records of circuit 1.
///
/// The octets of the source, in the law of `spec`, are coded by one encoder from reset, in packets of
/// `spec.ptime` ms; sequence numbers and timestamps begin with those of `spec`.
///
/// An incomplete last packet is filled with idle octets, which are coded too. Full packets are written before
/// the source is read again. No memory is taken.
///
/// ```rust
/// let spec = StreamSpec::new(Law::A, CodecKind::G711, 8, 7, 65535, 4294967200, 20).ok_or("a stream")?;
/// // a program has FromRead::new(rt.stdin()) and ToWrite::new(rt.stdout())
/// let mut source = FromRead::new(speech.as_slice());           // 320 octets
/// let mut sink = ToWrite::new(Vec::new(rt.alloc()));
/// let totals = encode_stream(&spec, &mut source, &mut sink)?;
/// assert!(rt; totals.datagrams == 2);
/// ```
///
/// With SSRC 7, sequence number 65535 and timestamp 4294967200, 320 octets 0xD5 give two records of 176
/// octets; the first begins with 44 01 00 AC 80 08 FF FF FF FF FF A0 00 00 00 07.
///
/// # Errors
///
/// [`RunFault::Read`] if the source failed, or after 2^62 reads: the full packets of the octets that it
/// gave are written. [`RunFault::Write`] if the sink failed: it has a prefix of what would be written.
pub fn encode_stream<S: Source, K: Sink>(
    spec: &StreamSpec,
    source: &mut S,
    sink: &mut K,
) -> Result<Totals, RunFault>
    requires { CanBegin (S.tells source.old) (K.tells sink.old) }
    ensures ok { IfOk result (Encodes spec.now
        (S.tells source.old) (S.tells source.new) (K.tells sink.old) (K.tells sink.new)) }
    ensures fault { IfErr result (EncodesUntil spec.now
        (S.tells source.old) (S.tells source.new) (K.tells sink.old) (K.tells sink.new)) }
    ensures had_room { HadRoom (S.was_offered source.new) }
{
    g726_codec::laws::words_are_counted();
    g726_codec::laws::prefixes_come_first();
    let mut codec = AnyCodec::new(spec.law, spec.codec);
    let mut speech = [0u8; SPEECH_LEN];
    let mut held = 0usize;
    let mut progress = first_packet(spec.sequence, spec.timestamp);
    let mut waiting = OutputBuffer::new();
    'reading: for turn in 0..MAX_READS {
        prove!(turn < MAX_READS);
        let Ok(n) = read_behind(source, &mut speech, held) else {
            return Err(RunFault::Read);
        };
        if n == 0 {
            let end = fill_last(spec, &mut codec, &mut speech, held);
            write_packets(spec, &mut progress, &speech[..end], &mut waiting, sink)?;
            return Ok(Totals {
                datagrams: progress.datagrams,
                ..NO_TOTALS
            });
        }
        let end = held + n;
        encode_all(spec, &mut codec, &mut speech[held..end]);
        let left = write_packets(spec, &mut progress, &speech[..end], &mut waiting, sink)?;
        speech.copy_within(end - left..end, 0);
        held = left;
    }
    Err(RunFault::Read)
}
