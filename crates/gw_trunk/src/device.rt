//! How a trunk's descriptor is read and written without waiting (`TrunkInput`, `TrunkOutput`).

ghost use Rattle.std.specs.Prelude.{◌≡◌, ◌+◌, ◌<◌, ◌≤◌, ◌++◌, ℕ, List, [], length, Some, IfOk, IfErr, IfSome};
ghost use Rattle.std.specs.Prelude.{IfNone, Bool, true, if◌then◌else◌, ⊤};
ghost use Rattle.std.specs.Io.KnownBytes.{IsAtEnd};
ghost use Rattle.gw_trunk.specs.Device.{IsTaken, WasRead, octets_taken, written_of};
ghost use Rattle.gw_trunk.specs.Pieces.{AsksRecord};

use crate::device_calls::{is_for_later, write_now};
use crate::logged_reader::LoggedReader;
use crate::waiting::Waiting;
use gw_records::{AtStart, Log, RecordHead};
use mio::Interest;
use std::io::{self, Read, Write};
use std::net::Net;
use std::time::Duration;
use thiserror::Error;

// How long a device that takes no octets is waited for a while.
const A_WHILE_MS: u64 = 20;

/// A device failed.
#[derive(Clone, Copy, Debug, PartialEq, Eq, Error)]
#[error("a device failed")]
pub struct DeviceFault;

/// What a read of a device came to.
#[derive(Clone, Copy, Debug, PartialEq, Eq)]
pub enum DeviceRead {
    /// This many octets.
    Octets(usize),
    /// No octet has come yet.
    NoneNow,
    /// No octet will come any more.
    Ended,
}

/// What the octets of a trunk come from, and the commands of clients.
///
/// What it is at a time is the type's own: a caller that knows nothing of the type has it only of the calls
/// that say it.
pub trait TrunkInput {
    /// The octets of the trunk that have come.
    ghost came: { Self → List ℕ };

    /// The octets of the C and K records of clients that were taken.
    ghost asked: { Self → List ℕ };

    /// The octets of the answers that clients were given.
    ghost told: { Self → List ℕ };

    /// Holds of a device if a read reported that it has ended.
    ghost has_ended: { Self → Type 0 } = { λ _. ⊤ };

    /// Holds of a device if a read of it has failed.
    ghost has_failed: { Self → Type 0 } = { λ _. ⊤ };

    /// How many times it was waited for.
    ghost waits: { Self → ℕ };

    /// Whether the trunk was read since the last record of a client.
    ghost is_turn: { Self → Bool } = { λ _. true };

    /// Whether the last read of the trunk found none.
    ghost is_empty: { Self → Bool } = { λ _. true };

    /// Whether no client has anything.
    ghost clients_are_quiet: { Self → Bool } = { λ _. true };

    /// Whether neither the trunk nor a client has anything.
    ghost is_idle: { Self → Bool } = { λ _. true };

    /// Takes octets of the trunk that have come, to the front of `room`. It never waits for them.
    fn read(&mut self, room: &mut [u8]) -> Result<DeviceRead, DeviceFault>
        requires { 0 < length room.old }
        ensures bound { IfOk result (λ t. IsTaken t (length room.new)) }
        ensures came { came self.new ≡ came self.old ++ octets_taken result room.new }
        ensures asked { asked self.new ≡ asked self.old }
        ensures told { told self.new ≡ told self.old }
        ensures turn { IfOk result (λ t. WasRead t → is_turn self.new ≡ true) }
        ensures empty { IfOk result (λ t. t ≡ DeviceRead.NoneNow → is_empty self.new ≡ true) }
        ensures ended { IfOk result (λ t. t ≡ DeviceRead.Ended → has_ended self.new) }
        ensures err { IfErr result (λ _. has_failed self.new) }
        ensures waits { waits self.new ≡ waits self.old };

    /// Takes the next record of a client; None if no client has a whole one. Each record of a client comes
    /// behind a read of the trunk. It never waits.
    fn command(&mut self) -> Option<RecordHead>
        requires turn { is_turn self.old ≡ true }
        ensures came { came self.new ≡ came self.old }
        ensures asked { IfSome result (AsksRecord (asked self.old) (asked self.new)) }
        ensures none { IfNone result (asked self.new ≡ asked self.old) }
        ensures told { told self.new ≡ told self.old }
        ensures quiet { IfNone result (clients_are_quiet self.new ≡ true) }
        ensures idle { IfNone result (is_empty self.old ≡ true → is_idle self.new ≡ true) }
        ensures waits { waits self.new ≡ waits self.old };

    /// Gives the answer to the last record of a client to this client. It never waits.
    fn answer(&mut self, octets: &[u8])
        ensures told { told self.new ≡ told self.old ++ octets.now }
        ensures came { came self.new ≡ came self.old }
        ensures asked { asked self.new ≡ asked self.old }
        ensures turn { is_turn self.new ≡ is_turn self.old };

    /// Waits until octets or a client may have come, when there is nothing.
    fn wait(&mut self)
        requires idle { is_idle self.old ≡ true }
        ensures came { came self.new ≡ came self.old }
        ensures asked { asked self.new ≡ asked self.old }
        ensures told { told self.new ≡ told self.old }
        ensures waits { waits self.new ≡ waits self.old + 1 };
}

/// What the octets of a trunk go to.
pub trait TrunkOutput {
    /// The octets that went.
    ghost went: { Self → List ℕ };

    /// Holds of a device if its last write found no room. After a wait it is not known.
    ghost is_full: { Self → Type 0 } = { λ _. ⊤ };

    /// Holds of a device if a write to it has failed.
    ghost has_failed: { Self → Type 0 } = { λ _. ⊤ };

    /// Relates a device to how many octets its last write took.
    ghost has_taken: { Self → ℕ → Type 0 } = { λ _ _. ⊤ };

    /// Relates a device to the octets that its last write was given.
    ghost was_given: { Self → List ℕ → Type 0 } = { λ _ _. ⊤ };

    /// How many times it was waited for without a limit.
    ghost waits: { Self → ℕ };

    /// How many waits for a while ended without room.
    ghost slow_waits: { Self → ℕ } = { λ _. 0 };

    /// Takes octets from the front of `octets`, and returns how many; None if it can take none now. It never
    /// waits.
    fn write(&mut self, octets: &[u8]) -> Result<Option<usize>, DeviceFault>
        ensures bound { IfOk result (λ n. IfSome n (λ m. m ≤ length octets.now)) }
        ensures went { went self.new ≡ went self.old ++ written_of result octets.now }
        ensures waits { waits self.new ≡ waits self.old }
        ensures slow { slow_waits self.new ≡ slow_waits self.old }
        ensures taken { IfOk result (λ n. IfSome n (has_taken self.new)) }
        ensures full { IfOk result (λ n. IfNone n (is_full self.new)) }
        ensures given { was_given self.new octets.now }
        ensures err { IfErr result (λ _. has_failed self.new) };

    /// Waits until it may take octets, after a write that found no room.
    fn wait(&mut self)
        requires full { is_full self.old }
        ensures went { went self.new ≡ went self.old }
        ensures waits { waits self.new ≡ waits self.old + 1 }
        ensures slow { slow_waits self.new ≡ slow_waits self.old };

    /// Waits until it may take octets, until it has taken none for 20 ms at most, after a write that found no
    /// room. Returns whether it may. It rests for a moment where one that might have taken octets took none.
    fn wait_a_while(&mut self) -> bool
        requires full { is_full self.old }
        ensures went { went self.new ≡ went self.old }
        ensures slow { slow_waits self.new ≡ slow_waits self.old + (if result then 0 else 1) };
}

/// A reader over a descriptor. What came is what the calls of the reader gave.
#[derive(Drop)]
pub struct FromDevice<R: Read> {
    reader: LoggedReader<R>,
    waiting: Waiting,
    // What answers clients, of whom there are none.
    told: Log,
    // An octet for each wait.
    waits: Log,
}

/// A writer over a descriptor. What went is what the calls of the writer took: if it is known what it holds,
/// that is what it held at the start and what went.
#[derive(Drop)]
pub struct ToDevice<W: Write> {
    writer: W,
    waiting: Waiting,
    // An octet for each wait without a limit.
    waits: Log,
    // Whether a wait ended before it took octets, since the last ones.
    is_slow: bool,
    // An octet for each wait that ended so.
    slow_waits: Log,
    start: AtStart<W>,
    log: Log,
    ghost holds: { (before : List ℕ) → W.contents start.value ≡ Some before
        → W.contents writer ≡ Some (before ++ log.octets) },
}

impl<R: Read + Drop> FromDevice<R> {
    /// A trunk's input from a reader with this descriptor, without clients. The error is the system's.
    pub fn open(
        rt: &(impl Net + AllocGlobal),
        reader: R,
        descriptor: i32,
    ) -> io::Result<FromDevice<R>>
        ensures reader { IfOk result (λ d. d.reader.reader ≡ reader) }
        ensures start { IfOk result (λ d. d.reader.start.value ≡ reader) }
        ensures log { IfOk result (λ d. d.reader.log.octets ≡ []) }
        ensures told { IfOk result (λ d. d.told.octets ≡ []) }
    {
        Ok(FromDevice {
            waiting: Waiting::open(rt, descriptor, Interest::READABLE)?,
            reader: LoggedReader::new(reader),
            told: Log::new(),
            waits: Log::new(),
        })
    }
}

impl<W: Write + Drop> ToDevice<W> {
    /// A trunk's output to a writer with this descriptor. The error is the system's.
    pub fn open(
        rt: &(impl Net + AllocGlobal),
        writer: W,
        descriptor: i32,
    ) -> io::Result<ToDevice<W>>
        ensures writer { IfOk result (λ d. d.writer ≡ writer) }
        ensures start { IfOk result (λ d. d.start.value ≡ writer) }
        ensures log { IfOk result (λ d. d.log.octets ≡ []) }
    {
        let waiting = Waiting::open(rt, descriptor, Interest::WRITABLE)?;
        let start = AtStart::of(&writer);
        Ok(ToDevice {
            writer,
            waiting,
            waits: Log::new(),
            is_slow: false,
            slow_waits: Log::new(),
            start,
            log: Log::new(),
        })
    }
}

impl<R: Read> TrunkInput for FromDevice<R> {
    ghost came = { λ d. d.reader.log.octets };

    ghost asked = { λ _. [] };

    ghost told = { λ d. d.told.octets };

    ghost has_ended = { λ d. IsAtEnd (R.remaining d.reader.reader) };

    ghost waits = { λ d. length d.waits.octets };

    fn read(&mut self, room: &mut [u8]) -> Result<DeviceRead, DeviceFault> {
        match self.reader.read(room) {
            Ok(0) => Ok(DeviceRead::Ended),
            Ok(n) => {
                self.waiting.note_moved();
                Ok(DeviceRead::Octets(n))
            }
            Err(kind) if is_for_later(kind) => Ok(DeviceRead::NoneNow),
            Err(_) => Err(DeviceFault),
        }
    }

    fn command(&mut self) -> Option<RecordHead> {
        None
    }

    fn answer(&mut self, octets: &[u8]) {
        self.told.append(octets, octets.len());
    }

    fn wait(&mut self) {
        self.waits.append(&[0], 1);
        self.waiting.wait();
    }
}

impl<W: Write> TrunkOutput for ToDevice<W> {
    ghost went = { λ d. d.log.octets };

    ghost waits = { λ d. length d.waits.octets };

    ghost slow_waits = { λ d. length d.slow_waits.octets };

    fn write(&mut self, octets: &[u8]) -> Result<Option<usize>, DeviceFault> {
        match write_now(&mut self.writer, octets) {
            Ok(n) => {
                self.log.append(octets, n);
                self.is_slow = false;
                self.waiting.note_moved();
                Ok(Some(n))
            }
            Err(kind) if is_for_later(kind) => Ok(None),
            Err(_) => Err(DeviceFault),
        }
    }

    fn wait(&mut self) {
        self.waiting.wait();
        self.waits.append(&[0], 1);
    }

    fn wait_a_while(&mut self) -> bool {
        if self.waiting.rest() {
            return true;
        }
        let limit = if self.is_slow { 0 } else { A_WHILE_MS };
        if self.waiting.wait_for(Duration::from_millis(limit)) {
            return true;
        }
        self.is_slow = true;
        self.slow_waits.append(&[0], 1);
        false
    }
}
