//! A trunk with clients: when it is read, when a client is asked, and what ends it (`WithClients`).

ghost use Rattle.std.specs.Prelude.{◌≡◌, ◌||◌, ◌&&◌, ◌++◌, List, ℕ, [], length, true, false, Some, IfOk};
ghost use Rattle.std.specs.Io.KnownBytes.{IsAtEnd};
ghost use Rattle.std.specs.List.{list_all};
ghost use Rattle.gw_trunk.specs.Clients.{BeginsTrunk, GivesAnswer, is_quiet};

use crate::client::ClientPoll;
use crate::clients::Clients;
use crate::device::{DeviceFault, DeviceRead, TrunkInput};
use crate::device_calls::is_for_later;
use crate::door::open_door;
use crate::logged_reader::LoggedReader;
use gw_records::{Log, RecordHead};
use mio::net::UnixListener;
use std::io::{self, Read};
use std::net::Net;
use std::rt::Files;

/// A reader of std over a descriptor, and the clients of a Unix socket. The reader is read only if octets
/// have come, so one that waits for them keeps no client from being asked.
///
/// A client gives C and K records, and the answer to a record goes to the client who gave it. A client that
/// goes, sends something else, or does not take an answer at once loses its connection, and nothing else
/// happens. Once the end is asked for nothing comes any more.
#[derive(Drop)]
pub struct WithClients<R: Read> {
    reader: LoggedReader<R>,
    clients: Clients,
    // (The next two are read by contracts alone.) Whether the trunk was read since the last record of a
    // client.
    turn: bool,
    // Whether the last read of the trunk found none, or the one before took all.
    empty: bool,
    // Whether nothing will come any more, and whether that was asked for.
    ended: bool,
    end_asked: bool,
    asked: Log,
    // The answers that clients were given.
    told: Log,
    // An octet for each wait.
    waits: Log,
    ghost ends: { (rest : List ℕ) → ended ≡ true → end_asked ≡ false
        → R.remaining reader.reader ≡ Some rest → rest ≡ [] },
}

impl<R: Read + Drop> WithClients<R> {
    /// What comes from the reader, whose descriptor this is and of which a read may give a block, and from
    /// those who connect to `door`. The error is the system's.
    pub fn open(
        rt: &(impl Net + AllocGlobal),
        reader: R,
        descriptor: i32,
        gives_blocks: bool,
        door: UnixListener,
    ) -> io::Result<WithClients<R>>
        ensures begins { IfOk result (λ d. BeginsTrunk reader d.reader d.asked.octets d.told.octets d.ended) }
    {
        let clients = Clients::open(rt, descriptor, gives_blocks, door)?;
        Ok(WithClients {
            reader: LoggedReader::new(reader),
            clients,
            turn: false,
            empty: false,
            ended: false,
            end_asked: false,
            asked: Log::new(),
            told: Log::new(),
            waits: Log::new(),
        })
    }

    /// Has a descriptor ask for the end, when anything comes of it or it is closed at its other end. The
    /// error is the system's.
    pub fn end_by(&mut self, descriptor: i32) -> io::Result<()>
        ensures reader { self.new.reader ≡ self.old.reader }
        ensures asked { self.new.asked ≡ self.old.asked }
        ensures told { self.new.told ≡ self.old.told }
        ensures ended { self.new.ended ≡ self.old.ended }
    {
        self.clients.watch_end(descriptor)
    }
}

/// What comes from the reader, whose descriptor this is, and from the clients of the Unix socket at a path.
/// `gives_blocks` says whether a read gives a block, though more may have
/// come, as of a card; of a pipe or a socket it gives all, up to its room. An old socket there at which
/// nobody listens is replaced. The error is the system's.
pub fn open_clients<R: Read + Drop>(
    rt: &(impl Files + Net + AllocGlobal),
    reader: R,
    descriptor: i32,
    gives_blocks: bool,
    path: &str,
) -> io::Result<WithClients<R>>
    ensures begins { IfOk result (λ d. BeginsTrunk reader d.reader d.asked.octets d.told.octets d.ended) }
{
    let door = open_door(rt, path)?;
    WithClients::open(rt, reader, descriptor, gives_blocks, door)
}

impl<R: Read> TrunkInput for WithClients<R> {
    ghost came = { λ d. d.reader.log.octets };

    ghost asked = { λ d. d.asked.octets };

    ghost told = { λ d. d.told.octets };

    ghost has_ended = { λ d. (d.ended ≡ true)
        × (d.end_asked ≡ false → IsAtEnd (R.remaining d.reader.reader)) };

    ghost waits = { λ d. length d.waits.octets };

    ghost is_turn = { λ d. d.turn };

    ghost is_empty = { λ d. d.empty };

    ghost clients_are_quiet = { λ d. d.ended || list_all is_quiet d.clients.places };

    ghost is_idle = { λ d. d.ended || d.empty && list_all is_quiet d.clients.places };

    fn read(&mut self, room: &mut [u8]) -> Result<DeviceRead, DeviceFault> {
        if self.ended {
            return Ok(DeviceRead::Ended);
        }
        self.turn = true;
        self.empty = false;
        if !self.clients.can_read() {
            self.empty = true;
            return Ok(DeviceRead::NoneNow);
        }
        match self.reader.read(room) {
            Ok(0) => {
                self.ended = true;
                Ok(DeviceRead::Ended)
            }
            Ok(n) => {
                if n < room.len() {
                    self.clients.note_drained();
                }
                Ok(DeviceRead::Octets(n))
            }
            Err(kind) if is_for_later(kind) => {
                self.clients.note_refused();
                self.empty = true;
                Ok(DeviceRead::NoneNow)
            }
            Err(_) => Err(DeviceFault),
        }
    }

    fn command(&mut self) -> Option<RecordHead> {
        if self.ended {
            return None;
        }
        self.clients.let_in();
        if self.clients.ends {
            self.ended = true;
            self.end_asked = true;
            return None;
        }
        match self.clients.ask() {
            ClientPoll::Command(head) => {
                self.turn = false;
                self.asked.append_record(&head, &[]);
                Some(head)
            }
            ClientPoll::Nothing | ClientPoll::Gone => None,
        }
    }

    fn answer(&mut self, octets: &[u8])
        ensures gives { GivesAnswer self.old.clients self.new.clients octets.now }
        ensures told { self.new.told.octets ≡ self.old.told.octets ++ octets.now }
        ensures reader { self.new.reader ≡ self.old.reader }
        ensures asked { self.new.asked ≡ self.old.asked }
        ensures turn { self.new.turn ≡ self.old.turn }
    {
        self.clients.give_answer(octets);
        self.told.append(octets, octets.len());
    }

    fn wait(&mut self) {
        self.waits.append(&[0], 1);
        if !self.ended {
            self.clients.wait();
        }
    }
}
