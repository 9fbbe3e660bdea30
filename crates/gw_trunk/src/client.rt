//! Whether a client's command has come whole, and when the client is disconnected (`Client`).

ghost use Rattle.std.specs.Prelude.{◌≡◌, ◌+◌, ◌<◌, ◌≤◌, ◌++◌, ◌||◌, [], true, false, length};
ghost use Rattle.std.specs.Prelude.{is_ok};
ghost use Rattle.gw_trunk.specs.KnownOctets.{ReadsMore};
ghost use Rattle.gw_trunk.specs.Device.{has_octets, is_over, passed_count, is_broken_pipe, FoundNone, IsOver};
ghost use Rattle.gw_trunk.specs.System.{SystemRead};

use crate::connection::{read_client, write_client};
use crate::held::drop_first;
use arrayvec::ArrayVec;
use gw_records::{AcceptedKinds, AtStart, Log, RecordHead, RecordsEnd, first_record};
use mio::net::UnixStream;
use std::io::ErrorKind;

// How many octets of a client are held.
const ROOM_LEN: usize = 64;

// What a client gives.
const KINDS: AcceptedKinds = AcceptedKinds {
    trunk: false,
    datagrams: false,
    commands: true,
    codecs: true,
};

/// A client is to be disconnected: it does not take its answer.
#[derive(Clone, Copy)]
pub struct Away;

/// What a client did that was asked.
#[derive(Clone, Copy)]
pub enum ClientPoll {
    /// It gave the record of this head.
    Command(RecordHead),
    /// It has nothing that is whole.
    Nothing,
    /// It is to be disconnected.
    Gone,
}

/// A connection that commands come from. What came is the records that the client gave, and what is held.
#[derive(Drop)]
pub struct Client {
    stream: UnixStream,
    held: ArrayVec<u8, 64>,
    // Whether something may have come since a read found nothing.
    pub ready: bool,
    /// How many clients came before it.
    pub number: u64,
    /// Whether it has given a record.
    pub known: bool,
    /// Whether it is known that it has hung up.
    pub left: bool,
    // Whether its end was read: nothing comes from it any more.
    ended: bool,
    start: AtStart<UnixStream>,
    // The octets that came from it.
    came: Log,
    // The records that it gave.
    gave: Log,
    // The octets of the answers that it got.
    got: Log,
    ghost gives: { came.octets ≡ gave.octets ++ held.items },
    ghost quiet: { ready ≡ false → ∥ FoundNone (SystemRead stream) ended ∥₁ },
    ghost over: { ended ≡ true → ∥ IsOver (SystemRead stream) ∥₁ },
    ghost gone: { ended ≡ true → left ≡ true },
}

// Reads once what has come, behind the octets held.
fn read_more(
    stream: &mut UnixStream,
    came: &mut Log,
    held: &mut ArrayVec<u8, 64>,
    want: usize,
) -> Result<usize, ErrorKind>
    requires { want + length held.old.items ≡ 64 }
    ensures more { ReadsMore came.old.octets came.new.octets held.old.items held.new.items
        (passed_count result) }
    ensures read { SystemRead stream.new result }
{
    let mut room = [0u8; ROOM_LEN];
    let read = read_client(stream, came, &mut room[..want]);
    let _ = held.try_extend_from_slice(&room[..passed_count(read)]);
    read
}

// How many octets passed in a read or a write.
fn passed_count(passed: Result<usize, ErrorKind>) -> usize
    ensures { result ≡ passed_count passed }
{
    match passed {
        Ok(n) => n,
        Err(_) => 0,
    }
}

// Whether a read gave octets.
fn has_octets(read: Result<usize, ErrorKind>) -> bool
    ensures { result ≡ has_octets read }
{
    match read {
        Ok(n) => n > 0,
        Err(_) => false,
    }
}

// Whether nothing comes any more after a read: it found the end, or failed for another reason than that
// nothing has come.
fn is_over(read: Result<usize, ErrorKind>) -> bool
    ensures { result ≡ is_over read }
{
    match read {
        Ok(n) => n == 0,
        Err(ErrorKind::WouldBlock) => false,
        Err(_) => true,
    }
}

// Whether a write says that the client has hung up.
fn is_broken_pipe(written: Result<usize, ErrorKind>) -> bool
    ensures { result ≡ is_broken_pipe written }
{
    match written {
        Err(ErrorKind::BrokenPipe) => true,
        _ => false,
    }
}

impl Client {
    ghost use Rattle.gw_trunk.specs.Clients.{IsOpen, IsWoken, Replies, Stays, Takes};

    /// A client that may have sent something, and how many came before it.
    pub fn new(stream: UnixStream, number: u64) -> Client
        ensures gave { result.gave.octets ≡ [] }
        ensures got { result.got.octets ≡ [] }
        ensures number { result.number ≡ number }
        ensures known { result.known ≡ false }
        ensures left { result.left ≡ false }
        ensures start { result.start.value ≡ stream }
    {
        let start = AtStart::of(&stream);
        Client {
            stream,
            held: ArrayVec::new(),
            ready: true,
            number,
            known: false,
            left: false,
            ended: false,
            start,
            came: Log::new(),
            gave: Log::new(),
            got: Log::new(),
        }
    }

    /// Notes that the client may have sent something, or has hung up.
    pub fn wake(&mut self, has_left: bool)
        ensures { IsWoken true has_left self.old self.new }
    {
        self.ready = true;
        self.left = has_left || self.left;
    }

    // Reads once what has come. What came before the client's end is still to be acted on.
    fn read_once(&mut self, want: usize)
        requires room { want + length self.old.held.items ≡ 64 }
        requires goes { self.old.ended ≡ false }
        ensures stays { Stays self.old self.new }
        ensures more { self.new.ready ≡ true → length self.old.held.items < length self.new.held.items }
    {
        let read = read_more(&mut self.stream, &mut self.came, &mut self.held, want);
        self.ready = has_octets(read);
        self.ended = is_over(read);
        self.left = self.left || self.ended;
    }

    // Reads what has come, until there is nothing or no room.
    fn refill(&mut self)
        ensures stays { Stays self.old self.new }
        ensures all { self.new.ready ≡ true → self.new.ended ≡ false → 64 ≤ length self.new.held.items }
    {
        for _turn in 0..ROOM_LEN {
            let want = self.held.remaining_capacity();
            if want == 0 || !self.ready || self.ended {
                return;
            }
            self.read_once(want);
        }
    }

    // The poll of a client without a whole record: none yet, unless its end was read, or it has sent too
    // much.
    fn nothing(&self) -> ClientPoll
        requires part { IsOpen self.now.held.items }
        requires all { self.now.ready ≡ true → self.now.ended ≡ false → 64 ≤ length self.now.held.items }
        ensures { Replies result self.now self.now }
    {
        if self.ended || self.held.is_full() {
            ClientPoll::Gone
        } else {
            ClientPoll::Nothing
        }
    }

    // The client's next record, in the octets that are held.
    fn next_record(&mut self) -> ClientPoll
        requires { self.old.ready ≡ true → self.old.ended ≡ false → 64 ≤ length self.old.held.items }
        ensures replies { Replies result self.old self.new }
        ensures ended { self.new.ended ≡ self.old.ended }
    {
        match first_record(&KINDS, self.held.as_slice()) {
            Ok(first) => {
                drop_first(&mut self.held, first.len);
                self.gave.append_record(&first.head, &[]);
                self.known = true;
                ClientPoll::Command(first.head)
            }
            Err(RecordsEnd::End | RecordsEnd::Truncated) => self.nothing(),
            Err(_) => ClientPoll::Gone,
        }
    }

    /// Takes the client's next record, if it is whole. A client that has hung up is disconnected only behind
    /// its last whole record.
    pub fn ask(&mut self) -> ClientPoll
        ensures { Replies result self.old self.new }
    {
        self.refill();
        self.next_record()
    }

    /// Gives the client an answer. A client that does not take it whole at once is to be disconnected, unless
    /// it has hung up: then nobody gets the rest.
    pub fn answer(&mut self, answer: &[u8]) -> Result<(), Away>
        ensures { Takes (is_ok result) self.old self.new answer.now }
    {
        let written = write_client(&mut self.stream, &mut self.got, answer);
        let n = passed_count(written);
        self.left = self.left || is_broken_pipe(written);
        if n == answer.len() || self.left {
            Ok(())
        } else {
            Err(Away)
        }
    }
}
