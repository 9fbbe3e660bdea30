//! When octets are written to a sink, and when they wait in a buffer (`put`, `flush`).
ghost use Rattle.std.specs.Prelude.{◌≡◌, ◌-◌, ◌<◌, ◌++◌, [], length, IfErr, OnOk, OnErr};
ghost use Rattle.std.specs.Io.KnownBytes.{Appends};
ghost use Rattle.std.specs.Prelude.{◌+◌, ◌≤◌};
ghost use Rattle.gw_records.specs.Streams.{CanCount, Puts, Writes, FailsAfterPrefix, GaveRest};

use crate::outcome::RunFault;
use crate::streams::Sink;
use arrayvec::ArrayVec;

// The most octets buffered before a write.
const OUTPUT_LEN: usize = 65_536;

/// Octets that are written before the next read.
pub type OutputBuffer = ArrayVec<u8, 65_536>;

/// A trunk record to write: four octets and the longest body.
pub type TrunkRecord = ArrayVec<u8, 65_539>;

/// Writes all of the octets.
pub fn write_all<K: Sink>(sink: &mut K, octets: &[u8]) -> Result<(), RunFault>
    requires { CanCount (K.tells sink.old).failures }
    ensures ok { OnOk result (Appends (K.tells sink.old).taken (K.tells sink.new).taken octets.now) }
    ensures no_failure { OnOk result ((K.tells sink.new).failures ≡ (K.tells sink.old).failures) }
    ensures some { OnErr result (0 < length octets.now) }
    ensures fault { IfErr result (λ e. (e ≡ RunFault.Write)
        × FailsAfterPrefix (K.tells sink.old) (K.tells sink.new) octets.now) }
    ensures rest { OnErr result (GaveRest (K.tells sink.old).taken (K.tells sink.new).taken octets.now
        (K.was_given sink.new)) }
{
    let mut rest = octets;
    while !rest.is_empty() {
        match sink.write(rest) {
            Ok(n) if n > 0 => rest = &rest[n..],
            _ => return Err(RunFault::Write),
        }
    }
    Ok(())
}

/// Writes the buffered octets.
#[inline]
pub fn flush<K: Sink>(sink: &mut K, waiting: &mut OutputBuffer) -> Result<(), RunFault>
    requires { CanCount (K.tells sink.old).failures }
    ensures writes { Writes (K.tells sink.old) (K.tells sink.new) waiting.old.items result }
    ensures empty { OnOk result (waiting.new.items ≡ []) }
    ensures some { OnErr result (0 < length waiting.old.items) }
{
    if waiting.is_empty() {
        return Ok(());
    }
    write_waiting(sink, waiting)
}

// Writes the buffered octets, if there are some.
#[inline(never)]
fn write_waiting<K: Sink>(sink: &mut K, waiting: &mut OutputBuffer) -> Result<(), RunFault>
    requires { CanCount (K.tells sink.old).failures }
    ensures writes { Writes (K.tells sink.old) (K.tells sink.new) waiting.old.items result }
    ensures empty { OnOk result (waiting.new.items ≡ []) }
{
    write_all(sink, waiting.as_slice())?;
    waiting.clear();
    Ok(())
}

/// Adds octets to the buffer; if both do not fit, it is written first.
pub fn put<K: Sink>(sink: &mut K, waiting: &mut OutputBuffer, octets: &[u8]) -> Result<(), RunFault>
    requires { CanCount (K.tells sink.old).failures }
    ensures puts { Puts (K.tells sink.old) (K.tells sink.new) waiting.new.items
        (waiting.old.items ++ octets.now) result }
    ensures waits { length waiting.old.items + length octets.now ≤ 65536 → sink.new ≡ sink.old }
{
    if octets.len() <= waiting.remaining_capacity() {
        let _ = waiting.try_extend_from_slice(octets);
        return Ok(());
    }
    flush(sink, waiting)?;
    put_first(sink, waiting, octets)?;
    Ok(())
}

// Buffers octets in an empty buffer, or writes them if they are too many.
fn put_first<K: Sink>(
    sink: &mut K,
    waiting: &mut OutputBuffer,
    octets: &[u8],
) -> Result<(), RunFault>
    requires empty { waiting.old.items ≡ [] }
    requires writes { CanCount (K.tells sink.old).failures }
    ensures { Puts (K.tells sink.old) (K.tells sink.new) waiting.new.items
        octets.now result }
{
    if octets.len() > OUTPUT_LEN {
        return write_all(sink, octets);
    }
    let _ = waiting.try_extend_from_slice(octets);
    Ok(())
}
