//! A reader with a log of all octets that it gave (`LoggedReader`).

ghost use Rattle.std.specs.Prelude.{◌≡◌, ◌<◌, ◌≤◌, ◌++◌, [], length, IfOk};
ghost use Rattle.std.specs.Io.KnownBytes.{IsAtEnd};
ghost use Rattle.gw_trunk.specs.Device.{octets_read};
ghost use Rattle.gw_trunk.specs.KnownOctets.{Gave, StaysKnown};

use crate::device_calls::read_now;
use gw_records::{AtStart, Log};
use std::io::{ErrorKind, Read};

/// A reader, and what its calls gave: if it is known what the reader was to give, that is what it gave and
/// what is still to come.
#[derive(Drop)]
pub struct LoggedReader<R: Read> {
    reader: R,
    start: AtStart<R>,
    log: Log,
    ghost gave: { Gave (R.remaining start.value) (R.remaining reader) log.octets },
    ghost known: { StaysKnown (R.remaining start.value) (R.remaining reader) },
}

impl<R: Read> LoggedReader<R> {
    /// A reader that was not read yet.
    pub fn new(reader: R) -> LoggedReader<R>
        ensures reader { result.reader ≡ reader }
        ensures start { result.start.value ≡ reader }
        ensures log { result.log.octets ≡ [] }
    {
        let start = AtStart::of(&reader);
        LoggedReader {
            reader,
            start,
            log: Log::new(),
        }
    }

    /// Reads octets to the front of `room`, and returns how many.
    pub fn read(&mut self, room: &mut [u8]) -> Result<usize, ErrorKind>
        ensures bound { IfOk result (λ n. n ≤ length room.new) }
        ensures start { self.new.start.value ≡ self.old.start.value }
        ensures log { self.new.log.octets ≡ self.old.log.octets ++ octets_read result room.new }
        ensures end { IfOk result (λ n. n ≡ 0 → 0 < length room.new → IsAtEnd (R.remaining self.new.reader)) }
    {
        match read_now(&mut self.reader, room) {
            Ok(n) => {
                self.log.append(room, n);
                Ok(n)
            }
            Err(kind) => Err(kind),
        }
    }
}
