//! One of eight places for clients of `--tell`: its client, or the room that it has (`ClientSlot`).

ghost use Rattle.std.specs.Prelude.{◌≡◌, ◌≤◌, length, take, drop, IfOk, None};
ghost use Rattle.gw_tell.specs.Lines.{at_line};

use crate::backlog::Backlog;
use crate::client::Client;
use mio::net::UnixStream;
use std::alloc::Global;
use std::io::{self, ErrorKind};

/// A place: its client, if it has one, otherwise the room for what waits for the next one.
#[derive(Drop)]
pub struct ClientSlot {
    pub client: Option<Client>,
    pub room: Option<Backlog>,
}

impl ClientSlot {
    ghost use Rattle.gw_tell.specs.Clients.{Gets, HasRoom, IsTold, IsHeard, Seats};

    /// A free place, with its room. The error is that memory was refused.
    pub fn open(alloc: Global) -> io::Result<ClientSlot>
        ensures free { IfOk result (λ p. p.client ≡ None) }
        ensures room { IfOk result HasRoom }
    {
        match Backlog::new(alloc) {
            Ok(room) => Ok(ClientSlot {
                client: None,
                room: Some(room),
            }),
            Err(_) => Err(io::Error::from(ErrorKind::OutOfMemory)),
        }
    }

    /// Gives the free place to a client that connects at this octet of the trunk, and sends it these octets.
    /// If it does not take them, the place stays free.
    #[tactic(auto, unfolding(crate::specs::Clients::Seats))]
    pub fn seat(&mut self, stream: UnixStream, at: u64, octets: &[u8])
        requires free { self.old.client ≡ None }
        requires room { HasRoom self.old }
        ensures room { HasRoom self.new }
        ensures seats { Seats stream at octets.now self.new.client }
    {
        let Some(room) = self.room.take() else {
            return;
        };
        let mut client = Client::new(stream, at, room);
        match client.give(octets) {
            Ok(()) => self.client = Some(client),
            Err(_) => self.room = Some(client.into_room()),
        }
    }

    // Disconnects the client of the place, and keeps the room.
    fn let_go(&mut self)
        ensures gone { self.new.client ≡ None }
        ensures room { HasRoom self.old → HasRoom self.new }
    {
        if let Some(client) = self.client.take() {
            self.room = Some(client.into_room());
        }
    }

    /// Sends its client the lines of a text, and disconnects it if it does not take them.
    pub fn tell(&mut self, text: &[u8], front: usize, at: u64)
        requires front { front ≤ length text.now }
        requires line { take front text.now ≡ at_line at }
        ensures room { HasRoom self.old → HasRoom self.new }
        ensures client { IsTold self.old.client self.new.client at (drop front text.now) }
    {
        let Some(client) = &mut self.client else {
            return;
        };
        if let Err(_) = client.report(text, front, at) {
            self.let_go();
        }
    }

    /// Sends its client these octets, and disconnects it if it does not take them.
    pub fn give(&mut self, octets: &[u8])
        ensures room { HasRoom self.old → HasRoom self.new }
        ensures client { Gets self.old.client self.new.client octets.now }
    {
        let Some(client) = &mut self.client else {
            return;
        };
        if let Err(_) = client.give(octets) {
            self.let_go();
        }
    }

    /// Writes what waits for its client, reads what it sent, and disconnects it if it has left.
    pub fn listen(&mut self)
        ensures room { HasRoom self.old → HasRoom self.new }
        ensures client { IsHeard self.old.client self.new.client }
    {
        let Some(client) = &mut self.client else {
            return;
        };
        if let Err(_) = client.listen() {
            self.let_go();
        }
    }
}
