//! Which datagrams are decoded to speech, and which are skipped (`decode_stream`).
ghost use Rattle.std.specs.Prelude.{◌≡◌, ◌-◌, ◌^◌, ◌<◌, ◌∷◌, ◌++◌, ℕ, List, []};
ghost use Rattle.std.specs.Prelude.{Some, None, MatchOption, OnOk, IfOk, IfErr, is_some, unwrap_or};
ghost use Rattle.std.specs.List.{All};
ghost use Rattle.rtp_pack.specs.Payload.{words_of};
ghost use Rattle.gw_records.specs.Streams.{CanBegin, CanCount, Puts};
ghost use Rattle.gw_speech.specs.Encode.{word_bits};
ghost use Rattle.gw_speech.specs.Decode.{HasDecoded, datagram_words, speech_behind, count_record};
ghost use Rattle.gw_speech.specs.Decode.{DecodesAll, DecodesUntil};

use crate::coding::word_bits;
use crate::stream_spec::StreamSpec;
use g726_codec::{AnyCodec, CodecKind};
use gw_records::{
    AcceptedKinds, FRONT_LEN, NO_TOTALS, OutputBuffer, Reader, RunFault, Sink, Source, Totals,
    answer, first_record, flush, put,
};
use rtp_pack::Words;
use std::alloc::Global;

// Only datagrams are read.
const DATAGRAMS: AcceptedKinds = AcceptedKinds {
    trunk: false,
    datagrams: true,
    commands: false,
    codecs: false,
};

// The payload of a datagram, if it is one of the stream.
#[tactic(auto, unfolding(crate::specs::Decode::datagram_words))]
fn stream_payload<'a>(spec: &StreamSpec, octets: &'a [u8]) -> Option<&'a [u8]>
    ensures { MatchOption result (datagram_words spec.now octets.now ≡ None)
        (λ p. datagram_words spec.now octets.now ≡ Some (words_of (word_bits spec.now) p.now)) }
{
    match rtp_packet::parse(octets) {
        Ok(view) if view.payload_type() == spec.payload_type => Some(view.payload()),
        _ => None,
    }
}

// Adds an octet to the output; a full buffer is written first.
#[inline]
fn put_octet<K: Sink>(sink: &mut K, waiting: &mut OutputBuffer, octet: u8) -> Result<(), RunFault>
    requires { CanCount (K.tells sink.old).failures }
    ensures { Puts (K.tells sink.old) (K.tells sink.new) waiting.new.items
        (waiting.old.items ++ octet ∷ []) result }
{
    if waiting.is_full() {
        flush(sink, waiting)?;
    }
    waiting.push(octet);
    Ok(())
}

// Adds the speech of words to the output, octet by octet.
fn put_each<K: Sink>(
    spec: &StreamSpec,
    codec: &mut AnyCodec,
    words: Words<'_>,
    waiting: &mut OutputBuffer,
    sink: &mut K,
) -> Result<(), RunFault>
    requires kind { codec.old.kind ≡ spec.now.codec }
    requires fit { All (λ w. w < 2 ^ word_bits spec.now) words }
    requires writes { CanCount (K.tells sink.old).failures }
    ensures kind { codec.new.kind ≡ spec.now.codec }
    ensures puts { (before : List ℕ) → HasDecoded spec.now codec.old before
        → Puts (K.tells sink.old) (K.tells sink.new) waiting.new.items
        (waiting.old.items ++ speech_behind spec.now before words.entry) result }
    ensures stands { (before : List ℕ) → HasDecoded spec.now codec.old before
        → OnOk result (HasDecoded spec.now codec.new (before ++ words.entry)) }
{
    g726_codec::laws::words_are_counted();
    g726_codec::laws::prefixes_come_first();
    for word in words {
        put_octet(sink, waiting, codec.decode(word))?;
    }
    Ok(())
}

// Adds the speech of a payload to the output.
fn put_payload<K: Sink>(
    spec: &StreamSpec,
    codec: &mut AnyCodec,
    payload: &[u8],
    waiting: &mut OutputBuffer,
    sink: &mut K,
) -> Result<(), RunFault>
    requires kind { codec.old.kind ≡ spec.now.codec }
    requires writes { CanCount (K.tells sink.old).failures }
    ensures kind { codec.new.kind ≡ spec.now.codec }
    ensures puts { let words = words_of (word_bits spec.now) payload.now in
        (before : List ℕ) → HasDecoded spec.now codec.old before
        → Puts (K.tells sink.old) (K.tells sink.new) waiting.new.items
        (waiting.old.items ++ speech_behind spec.now before words) result }
    ensures stands { let words = words_of (word_bits spec.now) payload.now in
        (before : List ℕ) → HasDecoded spec.now codec.old before
        → OnOk result (HasDecoded spec.now codec.new (before ++ words)) }
{
    if spec.codec == CodecKind::G711 {
        g726_codec::laws::octets_are_words();
        rtp_pack::laws::octets_are_words();
        return put(sink, waiting, payload);
    }
    rtp_pack::laws::words_fit();
    put_each(
        spec,
        codec,
        rtp_pack::words(word_bits(spec), payload),
        waiting,
        sink,
    )
}

// Adds the speech of a datagram to the output.
//
// Returns whether it is one of the stream. It is out of line, so that the codec takes no registers from the
// loop.
#[inline(never)]
fn put_datagram<K: Sink>(
    spec: &StreamSpec,
    codec: &mut AnyCodec,
    octets: &[u8],
    waiting: &mut OutputBuffer,
    sink: &mut K,
) -> Result<bool, RunFault>
    requires kind { codec.old.kind ≡ spec.now.codec }
    requires writes { CanCount (K.tells sink.old).failures }
    ensures kind { codec.new.kind ≡ spec.now.codec }
    ensures puts { let words = unwrap_or (datagram_words spec.now octets.now) [] in
        (before : List ℕ) → HasDecoded spec.now codec.old before
        → Puts (K.tells sink.old) (K.tells sink.new) waiting.new.items
        (waiting.old.items ++ speech_behind spec.now before words) result }
    ensures stands { let words = unwrap_or (datagram_words spec.now octets.now) [] in
        (before : List ℕ) → HasDecoded spec.now codec.old before
        → OnOk result (HasDecoded spec.now codec.new (before ++ words)) }
    ensures answer { IfOk result (λ b. b ≡ is_some (datagram_words spec.now octets.now)) }
{
    g726_codec::laws::words_are_counted();
    match stream_payload(spec, octets) {
        Some(payload) => {
            put_payload(spec, codec, payload, waiting, sink)?;
            Ok(true)
        }
        None => Ok(false),
    }
}

// The totals of decoding after one more record.
fn count_record(totals: Totals, is_decoded: bool) -> Totals
    ensures { result ≡ count_record totals is_decoded }
{
    Totals {
        records: totals.records.saturating_add(1),
        dropped: if is_decoded {
            totals.dropped
        } else {
            totals.dropped.saturating_add(1)
        },
        ..totals
    }
}

// The state of decoding: the decoder, the output not yet written, and the totals.
#[derive(Drop)]
struct Decoding {
    codec: AnyCodec,
    waiting: OutputBuffer,
    totals: Totals,
}

impl Decoding {
    ghost use Rattle.std.specs.Prelude.{◌≡◌, ◌++◌, ℕ, List, [], OnOk, is_some, unwrap_or};
    ghost use Rattle.gw_records.specs.Outcome.{nothing_counted};
    ghost use Rattle.gw_records.specs.Streams.{CanCount, Puts};
    ghost use Rattle.gw_speech.specs.Decode.{HasDecoded, datagram_words, speech_behind, count_record};

    // The state before the first record.
    fn new(spec: &StreamSpec) -> Decoding
        ensures stands { HasDecoded spec.now result.codec [] }
        ensures waiting { result.waiting.items ≡ [] }
        ensures totals { result.totals ≡ nothing_counted }
    {
        Decoding {
            codec: AnyCodec::new(spec.law, spec.codec),
            waiting: OutputBuffer::new(),
            totals: NO_TOTALS,
        }
    }

    // Adds the speech of a record's datagram to the output, and counts it.
    fn act<K: Sink>(
        &mut self,
        spec: &StreamSpec,
        octets: &[u8],
        sink: &mut K,
    ) -> Result<(), RunFault>
        requires kind { self.old.codec.kind ≡ spec.now.codec }
        requires writes { CanCount (K.tells sink.old).failures }
        ensures puts { let words = unwrap_or (datagram_words spec.now octets.now) [] in
            (before : List ℕ) → HasDecoded spec.now self.old.codec before
            → Puts (K.tells sink.old) (K.tells sink.new) self.new.waiting.items
            (self.old.waiting.items ++ speech_behind spec.now before words) result }
        ensures stands { let words = unwrap_or (datagram_words spec.now octets.now) [] in
            (before : List ℕ) → HasDecoded spec.now self.old.codec before
            → OnOk result (HasDecoded spec.now self.new.codec (before ++ words)) }
        ensures counts { OnOk result (self.new.totals
            ≡ count_record self.old.totals (is_some (datagram_words spec.now octets.now))) }
    {
        let is_decoded = put_datagram(spec, &mut self.codec, octets, &mut self.waiting, sink)?;
        self.totals = count_record(self.totals, is_decoded);
        Ok(())
    }
}

/// Writes the speech of the source's D records, of any circuits.
///
/// The code words of one datagram after another are decoded by one decoder from reset, as octets in the law
/// of `spec`.
///
/// Bits behind the last whole word of a datagram are ignored. A datagram that `rtp_packet::parse` refuses, or
/// of another payload type than that of `spec`, counts in `dropped`. Complete speech is written before the
/// source is read again. Memory is taken once, before the first read.
///
/// ```rust
/// let spec = StreamSpec::new(Law::A, CodecKind::G711, 8, 0, 0, 0, 20).ok_or("a stream")?;
/// // a program has FromRead::new(rt.stdin()) and ToWrite::new(rt.stdout())
/// let mut source = FromRead::new(records.as_slice());          // two datagrams of this stream
/// let mut sink = ToWrite::new(Vec::new(rt.alloc()));
/// let totals = decode_stream(rt.alloc(), &spec, &mut source, &mut sink)?;
/// assert!(rt; totals.records == 2 && totals.dropped == 0);
/// ```
///
/// # Errors
///
/// The first of [`RunFault::BadKind`], [`RunFault::BadCircuit`] and [`RunFault::Truncated`] that holds of the
/// records, [`RunFault::Read`] if the source failed, or after 2^62 reads: the speech of all whole records
/// before it is written. [`RunFault::Write`] if the sink failed: it has a prefix of that speech.
/// [`RunFault::OutOfMemory`] if memory was refused: nothing is read or written.
#[inline(never)]
pub fn decode_stream<S: Source, K: Sink>(
    alloc: Global,
    spec: &StreamSpec,
    source: &mut S,
    sink: &mut K,
) -> Result<Totals, RunFault>
    requires { CanBegin (S.tells source.old) (K.tells sink.old) }
    ensures ok { IfOk result (DecodesAll spec.now
        (S.tells source.old) (S.tells source.new) (K.tells sink.old) (K.tells sink.new)) }
    ensures fault { IfErr result (DecodesUntil spec.now
        (S.tells source.old) (S.tells source.new) (K.tells sink.old) (K.tells sink.new)) }
{
    let Ok(mut reader) = Reader::new(alloc) else {
        return Err(RunFault::OutOfMemory);
    };
    g726_codec::laws::words_are_counted();
    g726_codec::laws::prefixes_come_first();
    let mut under_way = Decoding::new(spec);
    'decoding: loop {
        match first_record(&DATAGRAMS, reader.held()) {
            Ok(first) => {
                let octets = &reader.held()[FRONT_LEN..first.len];
                under_way.act(spec, octets, sink)?;
                reader.pass(first.len);
            }
            Err(ending) => {
                flush(sink, &mut under_way.waiting)?;
                if !reader.read_on(&DATAGRAMS, ending, source)? {
                    return answer(ending, under_way.totals);
                }
            }
        }
    }
}
