//! When a client of `--tell` gets lines, and when it is disconnected (`Client`).

ghost use Rattle.std.specs.Prelude.{◌≡◌, ◌⊎◌, ◌≤◌, ◌++◌, [], length, take, drop};
ghost use Rattle.std.specs.Prelude.{IfOk, OnOk, OnErr};
ghost use Rattle.gw_tell.specs.Backlog.{waiting};
ghost use Rattle.gw_tell.specs.Connections.{HasLeft, IsThere, WaitsShort, WriteFails};
ghost use Rattle.gw_tell.specs.Lines.{at_line};

use crate::backlog::Backlog;
use gw_records::{AtStart, Log};
use gw_trunk::{read_client, write_client};
use mio::net::UnixStream;
use std::io::ErrorKind;

// How much is read at once of what a client sends, which nobody looks at.
const ROOM_LEN: usize = 256;

/// A client is to be disconnected: it has gone, or more than 64 KiB of what it is sent would wait for it.
#[derive(Clone, Copy)]
pub struct Away;

/// A connection that is sent what changes.
#[derive(Drop)]
pub struct Client {
    stream: UnixStream,
    /// The place of the last `at` that it got.
    pub last: u64,
    start: AtStart<UnixStream>,
    /// The octets that it took.
    pub got: Log,
    /// What it was sent behind these, and has not taken yet.
    pub waits: Backlog,
}

// Writes octets, and returns how many the connection takes now.
fn write_now(stream: &mut UnixStream, got: &mut Log, octets: &[u8]) -> Result<usize, Away>
    ensures bound { IfOk result (λ n. n ≤ length octets.now) }
    ensures got { IfOk result (λ n. got.new.octets ≡ got.old.octets ++ take n octets.now) }
    ensures none { OnErr result (got.new.octets ≡ got.old.octets) }
    ensures left { IfOk result (λ n. WaitsShort stream.new (drop n octets.now)) }
    ensures err { OnErr result (WriteFails stream.new) }
{
    match write_client(stream, got, octets) {
        Ok(n) => Ok(n),
        Err(ErrorKind::WouldBlock | ErrorKind::Interrupted) => Ok(0),
        Err(_) => Err(Away),
    }
}

impl Client {
    ghost use Rattle.gw_tell.specs.Clients.{sent, DoesNotTake, IsOffered};
    ghost use Rattle.gw_tell.specs.Reports.{sent_to, last_after};

    /// A client that is to get the whole state at a place, and room for what waits for it.
    pub fn new(stream: UnixStream, place: u64, mut room: Backlog) -> Client
        ensures sent { sent result ≡ [] }
        ensures last { result.last ≡ place }
        ensures start { result.start.value ≡ stream }
    {
        room.clear();
        let start = AtStart::of(&stream);
        Client {
            stream,
            last: place,
            start,
            got: Log::new(),
            waits: room,
        }
    }

    /// The room of a client that is disconnected.
    pub fn into_room(self) -> Backlog {
        let Client { waits, .. } = self;
        waits
    }

    // Writes what waits, if something does, as far as the client takes it now.
    fn flush(&mut self) -> Result<(), Away>
        ensures sent { sent self.new ≡ sent self.old }
        ensures last { self.new.last ≡ self.old.last }
        ensures start { self.new.start ≡ self.old.start }
        ensures offered { OnOk result (IsOffered self.new) }
        ensures err { OnErr result (WriteFails self.new.stream) }
    {
        if self.waits.octets().is_empty() {
            return Ok(());
        }
        let n = write_now(&mut self.stream, &mut self.got, self.waits.octets())?;
        self.waits.pass(n);
        Ok(())
    }

    // Writes octets if none wait before them, and returns how many the client takes now.
    fn take_now(&mut self, octets: &[u8]) -> Result<usize, Away>
        ensures bound { IfOk result (λ n. n ≤ length octets.now) }
        ensures sent { IfOk result (λ n. sent self.new ≡ sent self.old ++ take n octets.now) }
        ensures last { self.new.last ≡ self.old.last }
        ensures start { self.new.start ≡ self.old.start }
        ensures waits { self.new.waits ≡ self.old.waits }
        ensures left { IfOk result (λ n. IsOffered self.old → WaitsShort
            self.new.stream (waiting self.old.waits ++ drop n octets.now)) }
        ensures err { OnErr result (WriteFails self.new.stream) }
    {
        if !self.waits.octets().is_empty() || octets.is_empty() {
            return Ok(0);
        }
        write_now(&mut self.stream, &mut self.got, octets)
    }

    /// Sends the client octets. What it does not take at once waits for it, behind what waits already. A
    /// client that cannot be written to, or for whom there is no room for all of them, is to be disconnected.
    pub fn give(&mut self, octets: &[u8]) -> Result<(), Away>
        ensures ok { OnOk result (sent self.new ≡ sent self.old ++ octets.now) }
        ensures last { self.new.last ≡ self.old.last }
        ensures start { self.new.start ≡ self.old.start }
        ensures offered { OnOk result (IsOffered self.new) }
        ensures err { OnErr result (DoesNotTake self.new (sent self.old ++ octets.now)) }
    {
        self.flush()?;
        let taken = self.take_now(octets)?;
        match self.waits.push(&octets[taken..]) {
            Ok(()) => Ok(()),
            Err(_) => Err(Away),
        }
    }

    /// Sends it the lines of a text, which follow the line of this place, and before them that line unless it
    /// was the last one; nothing if there are no lines.
    pub fn report(&mut self, text: &[u8], front: usize, place: u64) -> Result<(), Away>
        requires front { front ≤ length text.now }
        requires line { take front text.now ≡ at_line place }
        ensures ok { OnOk result (sent self.new
            ≡ sent self.old ++ sent_to self.old.last place (drop front text.now)) }
        ensures last { self.new.last ≡ last_after self.old.last place (drop front text.now) }
        ensures start { self.new.start ≡ self.old.start }
        ensures offered { OnOk result ((drop front text.now ≡ []) ⊎ IsOffered self.new) }
        ensures err { OnErr result (DoesNotTake self.new
            (sent self.old ++ sent_to self.old.last place (drop front text.now))) }
    {
        if text.len() == front {
            return Ok(());
        }
        if self.last == place {
            return self.give(&text[front..]);
        }
        self.last = place;
        self.give(text)
    }

    /// Writes what waits for the client, and reads what it sent.
    pub fn listen(&mut self) -> Result<(), Away>
        ensures sent { sent self.new ≡ sent self.old }
        ensures last { self.new.last ≡ self.old.last }
        ensures start { self.new.start ≡ self.old.start }
        ensures offered { OnOk result (IsOffered self.new) }
        ensures ok { OnOk result (IsThere self.new.stream) }
        ensures err { OnErr result (HasLeft self.new.stream) }
    {
        self.flush()?;
        let mut room = [0u8; ROOM_LEN];
        match read_client(&mut self.stream, &mut Log::new(), &mut room) {
            Ok(0) => Err(Away),
            Ok(_) | Err(ErrorKind::WouldBlock) => Ok(()),
            Err(_) => Err(Away),
        }
    }
}
