//! Sources and sinks of octets (`Source`, `Sink`), also over readers and writers of std.
ghost use Rattle.std.specs.Prelude.{◌≡◌, ◌<◌, ◌≤◌, ◌++◌, ℕ, List, [], length, IfOk, OnErr, Some};
ghost use Rattle.std.specs.Prelude.{⊤};
ghost use Rattle.gw_records.specs.Calls.{HasFailedToRead, HasFailedToWrite, SystemGave, SystemTookSome};
ghost use Rattle.gw_records.specs.Calls.{SystemWasOffered, SystemWasGiven};
ghost use Rattle.std.specs.Io.KnownBytes.{ReadConsumes, WriteAppends};
ghost use Rattle.gw_records.specs.Streams.{SourceState, SinkState, CountsRead, CountsTurn, CountsWrite};
ghost use Rattle.gw_records.specs.Streams.{or_none};

use crate::log::{AtStart, Log};
use std::io::{ErrorKind, Read, Write};
use thiserror::Error;

/// A read failed.
#[derive(Clone, Copy, Debug, PartialEq, Eq, Error)]
#[error("a read failed")]
pub struct SourceFault;

/// A write failed.
#[derive(Clone, Copy, Debug, PartialEq, Eq, Error)]
#[error("a write failed")]
pub struct SinkFault;

/// Gives octets.
pub trait Source {
    /// What the source reports: how many reads have failed and how many have not, each saturating, and, if
    /// known, the octets that it gave and those to come.
    ghost tells: { Self → SourceState };

    /// Relates a source to the room that its last read was offered.
    ghost was_offered: { Self → ℕ → Type 0 } = { λ _ _. ⊤ };

    /// Reads octets to the front of `buf` and returns how many.
    ///
    /// It returns 0 for a nonempty slice only if no octet is to come.
    fn read(&mut self, buf: &mut [u8]) -> Result<usize, SourceFault>
        ensures bound { IfOk result (λ n. n ≤ length buf.new) }
        ensures gives { WriteAppends (tells self.old).given (tells self.new).given result buf.new }
        ensures consumes { ReadConsumes (tells self.old).to_come (tells self.new).to_come result buf.new }
        ensures counts { CountsRead (tells self.old).failures (tells self.new).failures result }
        ensures turns { CountsTurn (tells self.old).reads (tells self.new).reads result }
        ensures offered { was_offered self.new (length buf.new) };
}

/// Takes octets.
pub trait Sink {
    /// What the sink reports: how many writes have failed, saturating, also those that took nothing of a
    /// nonempty piece, and, if known, the octets that it took.
    ghost tells: { Self → SinkState };

    /// Relates a sink to the octets that its last write was given.
    ghost was_given: { Self → List ℕ → Type 0 } = { λ _ _. ⊤ };

    /// Takes octets from the front of `octets` and returns how many.
    fn write(&mut self, octets: &[u8]) -> Result<usize, SinkFault>
        ensures bound { IfOk result (λ n. n ≤ length octets.now) }
        ensures takes { WriteAppends (tells self.old).taken (tells self.new).taken result octets.now }
        ensures counts { CountsWrite (tells self.old).failures (tells self.new).failures result octets.now }
        ensures given { was_given self.new octets.now };
}

// Reads octets to the front of `room`, and returns how many.
#[tactic(auto, unfolding(crate::specs::Calls::SystemGave, crate::specs::Calls::SystemWasOffered))]
fn read_once<R: Read>(reader: &mut R, room: &mut [u8]) -> Result<usize, ErrorKind>
    ensures bound { IfOk result (λ n. n ≤ length room.new) }
    ensures octets { ReadConsumes (R.remaining reader.old) (R.remaining reader.new) result room.new }
    ensures read { SystemGave reader.new result }
    ensures offered { SystemWasOffered reader.new (length room.new) }
{
    match reader.read(room) {
        Ok(n) => Ok(n),
        Err(error) => Err(error.kind()),
    }
}

// Writes octets from the front of `octets`, and returns how many.
#[tactic(auto, unfolding(crate::specs::Calls::SystemTookSome, crate::specs::Calls::SystemWasGiven))]
fn write_once<W: Write>(writer: &mut W, octets: &[u8]) -> Result<usize, ErrorKind>
    ensures bound { IfOk result (λ n. n ≤ length octets.now) }
    ensures octets { WriteAppends (W.contents writer.old) (W.contents writer.new) result octets.now }
    ensures wrote { SystemTookSome writer.new result }
    ensures given { SystemWasGiven writer.new octets.now }
{
    match writer.write(octets) {
        Ok(n) => Ok(n),
        Err(error) => Err(error.kind()),
    }
}

/// A std reader as a source.
///
/// Each error of the reader is a failure, also an interruption. The octets that its calls gave are known of
/// every reader, also of standard input.
#[derive(Drop)]
pub struct FromRead<R> {
    reader: R,
    failed: u64,
    reads: u64,
    log: Log,
}

impl<R: Read> FromRead<R> {
    /// A source of the reader's octets, not yet read.
    pub fn new(reader: R) -> Self
        ensures { result ≡ record {
          reader = reader;
          failed = 0;
          reads = 0;
          log = record { octets = []; calls = [] };
        } }
    {
        FromRead {
            reader,
            failed: 0,
            reads: 0,
            log: Log::new(),
        }
    }
}

impl<R: Read> Source for FromRead<R> {
    ghost tells = { λ s. record {
      failures = s.failed;
      reads = s.reads;
      given = Some s.log.octets;
      to_come = R.remaining s.reader;
    } };

    ghost was_offered = { λ s room. SystemWasOffered s.reader room };

    fn read(&mut self, buf: &mut [u8]) -> Result<usize, SourceFault>
        ensures bound { IfOk result (λ n. n ≤ length buf.new) }
        ensures gives { WriteAppends (Some self.old.log.octets) (Some self.new.log.octets) result buf.new }
        ensures consumes { ReadConsumes (R.remaining self.old.reader) (R.remaining self.new.reader)
            result buf.new }
        ensures counts { CountsRead self.old.failed self.new.failed result }
        ensures turns { CountsTurn self.old.reads self.new.reads result }
        ensures fails { OnErr result (HasFailedToRead self.new.reader) }
        ensures offered { SystemWasOffered self.new.reader (length buf.new) }
    {
        match read_once(&mut self.reader, buf) {
            Ok(n) => {
                self.log.append(buf, n);
                self.reads = self.reads.saturating_add(1);
                Ok(n)
            }
            Err(_) => {
                self.failed = self.failed.saturating_add(1);
                Err(SourceFault)
            }
        }
    }
}

/// A std writer as a sink.
///
/// Each error of the writer is a failure, also a write that took nothing. The octets that it took are known
/// of every writer, also of standard output and files: those it was known to hold at the start, then those
/// that its calls took. If the writer reports what it holds, it holds these.
#[derive(Drop)]
pub struct ToWrite<W: Write> {
    writer: W,
    failed: u64,
    start: AtStart<W>,
    log: Log,
    ghost holds: { (before : List ℕ) → W.contents start.value ≡ Some before
        → W.contents writer ≡ Some (before ++ log.octets) },
}

impl<W: Write> ToWrite<W> {
    /// A sink over the writer, without failures.
    pub fn new(writer: W) -> Self
        ensures writer { result.writer ≡ writer }
        ensures failed { result.failed ≡ 0 }
        ensures start { result.start.value ≡ writer }
        ensures log { result.log.octets ≡ [] }
    {
        let start = AtStart::of(&writer);
        ToWrite {
            writer,
            failed: 0,
            start,
            log: Log::new(),
        }
    }
}

impl<W: Write> Sink for ToWrite<W> {
    ghost tells = { λ s. record {
      failures = s.failed;
      taken = Some (or_none (W.contents s.start.value) ++ s.log.octets);
    } };

    ghost was_given = { λ s octets. SystemWasGiven s.writer octets };

    fn write(&mut self, octets: &[u8]) -> Result<usize, SinkFault>
        ensures bound { IfOk result (λ n. n ≤ length octets.now) }
        ensures takes { WriteAppends (Some (or_none (W.contents self.old.start.value) ++ self.old.log.octets))
            (Some (or_none (W.contents self.new.start.value) ++ self.new.log.octets)) result octets.now }
        ensures counts { CountsWrite self.old.failed self.new.failed result octets.now }
        ensures fails { OnErr result (HasFailedToWrite self.new.writer) }
        ensures given { SystemWasGiven self.new.writer octets.now }
    {
        match write_once(&mut self.writer, octets) {
            Ok(n) => {
                self.log.append(octets, n);
                if n == 0 && !octets.is_empty() {
                    self.failed = self.failed.saturating_add(1);
                }
                Ok(n)
            }
            Err(_) => {
                self.failed = self.failed.saturating_add(1);
                Err(SinkFault)
            }
        }
    }
}
