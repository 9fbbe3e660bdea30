//! The filter `align`: a trunk at any bit offset to octets of its time slots (`align_stream`).

ghost use Rattle.std.specs.Prelude.{◌≡◌, ◌++◌, ℕ, List, length, IfOk, IfErr};
ghost use Rattle.g704_framing.specs.Replies.{replies_after, stream_replies};
ghost use Rattle.g704_bits.specs.Standing.{StandsAfter};
ghost use Rattle.gw_records.specs.Streams.{CanBegin};
ghost use Rattle.gw_filter.specs.Align.{align_reply, Aligns, AlignsUntil};

use crate::through::{BufferFilter, octets_through};
use g704_bits::BitAligner;
use gw_records::{RunFault, Sink, Source, Totals};

/// Replaces the next octets of the stream by those of its time slots.
pub fn align_all(aligner: &mut BitAligner, octets: &mut [u8])
    ensures len { length octets.new ≡ length octets.old }
    ensures replies { (history : List ℕ) → StandsAfter aligner.old history
        → octets.new ≡ replies_after align_reply history octets.old }
    ensures stands { (history : List ℕ) → StandsAfter aligner.old history
        → StandsAfter aligner.new (history ++ octets.old) }
{
    for octet in octets.iter_mut() {
        *octet = aligner.octet(*octet);
    }
}

impl BufferFilter for BitAligner {
    ghost has_returned = { λ aligner octets returned. StandsAfter aligner octets
        × (returned ≡ stream_replies align_reply octets) };

    fn filter_buffer(&mut self, octets: &mut [u8]) {
        align_all(self, octets);
    }

    fn is_off(&self) -> bool {
        false
    }
}

/// Writes the octets of the time slots of an unaligned trunk.
///
/// It writes one octet for each octet of the source, as `g704_bits::BitAligner` returns it; all are written
/// before the source is read again. The octets are counted. No memory is taken.
///
/// ```rust
/// // 600 octets, three bits late; a program has FromRead::new(rt.stdin()) and ToWrite::new(rt.stdout())
/// let ended = align_stream(&mut LateTrunk::new(1000), &mut sink);
/// let totals = Totals { octets: 600, ..NO_TOTALS };
/// assert!(rt; ended == Ok(totals));
/// ```
///
/// # Errors
///
/// [`RunFault::Read`] if the source failed, or after 2^62 reads: the octets for all that it gave are
/// written. [`RunFault::Write`] if the sink failed: it has a prefix of what would be written.
pub fn align_stream<S: Source, K: Sink>(source: &mut S, sink: &mut K) -> Result<Totals, RunFault>
    requires { CanBegin (S.tells source.old) (K.tells sink.old) }
    ensures ok { IfOk result (Aligns
        (S.tells source.old) (S.tells source.new) (K.tells sink.old) (K.tells sink.new)) }
    ensures fault { IfErr result (AlignsUntil
        (S.tells source.old) (S.tells source.new) (K.tells sink.old) (K.tells sink.new)) }
{
    octets_through(&mut BitAligner::new(), source, sink)
}
