//! When a session reads on, and where the octets that it has not used are kept (`Reader`).
ghost use Rattle.std.specs.Prelude.{◌≡◌, ◌+◌, ◌-◌, ◌<◌, ◌≤◌, length, take, IfOk, OnErr};
ghost use Rattle.gw_records.specs.Streams.{CountsRead, CountsTurn, FailsToRefill, Refills};
ghost use Rattle.gw_records.specs.Records.{is_open};

use crate::outcome::RunFault;
use crate::records::{AcceptedKinds, RecordsEnd};
use crate::streams::{Source, SourceFault};
use std::alloc::{AllocError, Global};

// The octets of the longest record.
const RECORD_LEN: usize = 65_539;

const BUFFER_LEN: usize = 2 * RECORD_LEN;

// The least room for a read: 32 KiB.
const LEAST_ROOM: usize = 32_768;

/// Read limit: a session ends with `Read` after this many.
pub const MAX_READS: u64 = 1 << 62;

/// The octets read and not yet consumed.
#[derive(Drop)]
pub struct Reader {
    buffer: Box<[u8; BUFFER_LEN]>,
    start: usize,
    filled: usize,
    reads_left: u64,
    ghost room: { length buffer.value ≡ 131078 },
    ghost order: { start ≤ filled },
    ghost within: { filled ≤ 131078 },
}

// Whether more octets may change how octets end.
fn is_open(ending: RecordsEnd) -> bool
    ensures { result ≡ is_open ending }
{
    matches!(ending, RecordsEnd::End | RecordsEnd::Truncated)
}

/// Reads octets behind the first ones of a buffer.
///
/// Returns how many.
pub fn read_behind<S: Source>(
    source: &mut S,
    buffer: &mut [u8],
    filled: usize,
) -> Result<usize, SourceFault>
    requires { filled < length buffer.old }
    ensures fits { IfOk result (λ n. filled + n ≤ length buffer.new) }
    ensures gives { IfOk result (λ n. Refills (take filled buffer.old) (take (filled + n) buffer.new)
        (S.tells source.old) (S.tells source.new) n) }
    ensures none { OnErr result (FailsToRefill (take filled buffer.old) (take filled buffer.new)
        (S.tells source.old) (S.tells source.new)) }
    ensures counts { CountsRead (S.tells source.old).failures (S.tells source.new).failures result }
    ensures turns { CountsTurn (S.tells source.old).reads (S.tells source.new).reads result }
    ensures len { length buffer.new ≡ length buffer.old }
    ensures had_room { S.was_offered source.new (length buffer.old - filled) }
{
    let n = source.read(&mut buffer[filled..])?;
    Ok(n)
}

impl Reader {
    ghost use Rattle.std.specs.Prelude.{◌≡◌, ◌+◌, ◌-◌, ◌^◌, ◌<◌, ◌≤◌};
    ghost use Rattle.std.specs.Prelude.{[], length, drop, true, Some, IfOk, IfErr, OnErr};
    ghost use Rattle.gw_records.specs.Streams.{CanCount, CountsRead, CountsTurn, FailsToRefill, Refills};
    ghost use Rattle.gw_records.specs.Streams.{HadRoom};
    ghost use Rattle.gw_records.specs.Records.{end_of, is_open};
    ghost use Rattle.gw_records.specs.Reader.{held, holds, ReadsOn, FailsToRead};

    /// An empty buffer, with its memory.
    #[tactic(auto, unfolding(crate::specs::Reader::held))]
    pub fn new(alloc: Global) -> Result<Reader, AllocError>
        ensures holds { IfOk result (λ r. held r ≡ []) }
        ensures turns { IfOk result (λ r. r.reads_left ≡ 2 ^ 62) }
    {
        Ok(Reader {
            buffer: Box::new(alloc, [0; BUFFER_LEN])?,
            start: 0,
            filled: 0,
            reads_left: MAX_READS,
        })
    }

    /// The octets in the buffer.
    #[tactic(auto, unfolding(crate::specs::Reader::held))]
    pub fn held(&self) -> &[u8]
        ensures { result.now ≡ held self.now }
    {
        &self.buffer[self.start..self.filled]
    }

    /// Consumes the first octets in the buffer.
    #[tactic(auto, unfolding(crate::specs::Reader::held))]
    pub fn pass(&mut self, len: usize)
        requires { len ≤ length (held self.old) }
        ensures holds { held self.new ≡ drop len (held self.old) }
        ensures turns { self.new.reads_left ≡ self.old.reads_left }
    {
        self.start += len;
    }

    // Moves the octets to the front of the buffer.
    #[tactic(auto, unfolding(crate::specs::Reader::held))]
    fn compact(&mut self)
        ensures holds { held self.new ≡ held self.old }
        ensures front { self.new.start ≡ 0 }
        ensures filled { self.new.filled ≡ length (held self.old) }
        ensures turns { self.new.reads_left ≡ self.old.reads_left }
    {
        self.buffer.copy_within(self.start..self.filled, 0);
        self.filled -= self.start;
        self.start = 0;
    }

    // Makes room behind the octets.
    //
    // They move only if less than 32 KiB is left. If more are wanted, at most half of the buffer is in use,
    // so no move copies more than twice the octets that were read since the last one.
    #[tactic(auto, unfolding(crate::specs::Reader::held))]
    fn make_room(&mut self)
        requires { length (held self.old) + 32768 ≤ 131078 }
        ensures holds { held self.new ≡ held self.old }
        ensures room { self.new.filled + 32768 ≤ 131078 }
        ensures turns { self.new.reads_left ≡ self.old.reads_left }
    {
        if self.start == self.filled {
            self.start = 0;
            self.filled = 0;
        } else if BUFFER_LEN - self.filled < LEAST_ROOM {
            self.compact();
        }
    }

    // Reads octets behind those in the buffer.
    //
    // Returns how many.
    fn refill<S: Source>(&mut self, source: &mut S) -> Result<usize, SourceFault>
        requires room { length (held self.old) + 32768 ≤ 131078 }
        requires turn { 0 < self.old.reads_left }
        ensures gives { IfOk result (λ n. Refills (held self.old) (held self.new)
            (S.tells source.old) (S.tells source.new) n) }
        ensures none { OnErr result (FailsToRefill (held self.old) (held self.new)
            (S.tells source.old) (S.tells source.new)) }
        ensures counts { CountsRead (S.tells source.old).failures (S.tells source.new).failures result }
        ensures reads { CountsTurn (S.tells source.old).reads (S.tells source.new).reads result }
        ensures turns { self.new.reads_left + 1 ≡ self.old.reads_left }
        ensures had_room { HadRoom (S.was_offered source.new) }
    {
        self.make_room();
        self.reads_left -= 1;
        let n = read_behind(source, self.buffer.as_mut_slice(), self.filled)?;
        self.filled += n;
        Ok(n)
    }

    /// Reads the source if that may change how the octets end.
    ///
    /// Returns whether octets arrived. It does not read while a whole or an invalid record is first.
    pub fn read_on<S: Source>(
        &mut self,
        kinds: &AcceptedKinds,
        ending: RecordsEnd,
        source: &mut S,
    ) -> Result<bool, RunFault>
        requires ends { end_of kinds.now (held self.old) ≡ Some ending }
        requires reads { CanCount (S.tells source.old).failures }
        ensures ok { IfOk result (λ came. ReadsOn (S.tells source.old) (S.tells source.new)
            (holds self.old) (holds self.new) ending came) }
        ensures fault { IfErr result (λ e. (e ≡ RunFault.Read)
            × FailsToRead (S.tells source.old) (S.tells source.new) (holds self.old) (holds self.new)
            ending) }
        ensures had_room { is_open ending ≡ true → 0 < self.old.reads_left
            → HadRoom (S.was_offered source.new) }
    {
        if !is_open(ending) {
            return Ok(false);
        }
        let held = self.held();
        prove!(held.len() <= RECORD_LEN);
        if self.reads_left == 0 {
            return Err(RunFault::Read);
        }
        match self.refill(source) {
            Ok(0) => Ok(false),
            Ok(_) => Ok(true),
            Err(_) => Err(RunFault::Read),
        }
    }
}
