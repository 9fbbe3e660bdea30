//! When clients of `--tell` are accepted, looked at and sent what changed (`Teller`).

ghost use Rattle.std.specs.Prelude.{◌≡◌, ◌<◌, ◌≤◌, ℕ, List, true, false, length, take, drop};
ghost use Rattle.std.specs.Prelude.{IfSome, IfNone, IfOk, None};
ghost use Rattle.gw_records.specs.Records.{named};
ghost use Rattle.gw_tell.specs.Lines.{at_line, end_line};
ghost use Rattle.gw_tell.specs.Clients.{AllAreHeard, AllAreTold, AllFree, AllHaveRoom, AllTaken, at};
ghost use Rattle.gw_tell.specs.Clients.{Gets, IsOpen};

use crate::backlog::Backlog;
use crate::counts::{DatagramCounts, NO_COUNTS, count_datagram};
use crate::gateway_status::GatewayStatus;
use crate::lines::{push_at, push_event};
use crate::place::ClientSlot;
use crate::report::{are_due, place_after, report, whole_state};
use crate::seizures::count_seizures;
use crate::text::Text;
use e1_g711::Law;
use g704_cas::CircuitNo;
use gw_records::RecordHead;
use gw_session::Watch;
use gw_switch::Gateway;
use gw_trunk::{Door, open_door};
use mio::net::UnixStream;
use std::alloc::Global;
use std::io;
use std::net::Net;
use std::rt::Files;

// How many clients there may be at once.
const MOST_CLIENTS: usize = 8;

// The octets of the trunk from one look at clients to the next.
const LOOK: u64 = 8192;

/// Sends the clients of a Unix socket the state of a trunk and its changes, as lines of text (e1gw-tell(5)).
/// What a client does not take at once waits for it: 64 KiB at most, in memory taken at the start. A client
/// that leaves, or for whom there is no room, loses its connection, and nothing else happens.
#[derive(Drop)]
pub struct Teller {
    door: Door,
    places: [ClientSlot; 8],
    law: Law,
    // The octets of the trunk that the session has acted on.
    place: u64,
    // What was reported last, even if there was no client.
    told: GatewayStatus,
    // What became of the datagrams of each circuit since the session began.
    counts: [DatagramCounts; 30],
    // How often each line was seized since the session began.
    seized: [u64; 30],
    text: Text,
    ghost rooms: { AllHaveRoom places },
}

// Sends all clients the lines of a text.
fn tell_all(places: &mut [ClientSlot; 8], text: &[u8], front: usize, at: u64)
    requires front { front ≤ length text.now }
    requires line { take front text.now ≡ at_line at }
    ensures told { AllAreTold places.old places.new at (drop front text.now) }
    ensures rooms { AllHaveRoom places.old → AllHaveRoom places.new }
{
    for place in 0..MOST_CLIENTS {
        places[place].tell(text, front, at);
    }
}

// The first place without a client, if there is one.
fn free_place(places: &[ClientSlot; 8]) -> Option<usize>
    ensures some { IfSome result (λ place. (place < 8) × (at places.now place ≡ None)) }
    ensures none { IfNone result (AllTaken places.now) }
{
    for place in 0..MOST_CLIENTS {
        if places[place].client.is_none() {
            return Some(place);
        }
    }
    None
}

// Two free places, with the room of each. The error is that memory was refused.
fn open_two(alloc: Global) -> io::Result<(ClientSlot, ClientSlot)>
    ensures { IfOk result (λ two. IsOpen two.0 × IsOpen two.1) }
{
    let first = ClientSlot::open(alloc)?;
    let second = ClientSlot::open(alloc)?;
    Ok((first, second))
}

// Eight free places.
#[tactic(auto, using(crate::proofs::Letting::all_open))]
fn open_places(alloc: Global) -> io::Result<[ClientSlot; 8]>
    ensures free { IfOk result AllFree }
    ensures rooms { IfOk result AllHaveRoom }
{
    let (a, b) = open_two(alloc)?;
    let (c, d) = open_two(alloc)?;
    let (e, f) = open_two(alloc)?;
    let (g, h) = open_two(alloc)?;
    Ok([a, b, c, d, e, f, g, h])
}

impl Teller {
    ghost use Rattle.gw_tell.specs.Clients.{OnlyAt, Seats};
    ghost use Rattle.gw_tell.specs.Telling.{AsksDoor, HasBegun, IsLook, KeepsPlace, LetsIn};
    ghost use Rattle.gw_tell.specs.Telling.{TellsChanges, Welcomes};
    ghost use Rattle.gw_tell.specs.Reports.{place_after, whole_state};
    ghost use Rattle.gw_tell.specs.Seizures.{AreCounted};

    /// Listens at a path, with no client yet, and takes the memory of all places. The error is the system's,
    /// or that memory was refused.
    pub fn open(
        rt: &(impl Files + Net + AllocGlobal),
        path: &str,
        law: Law,
        gateway: &Gateway,
    ) -> io::Result<Teller>
        ensures { IfOk result (λ t. HasBegun t law gateway.now) }
    {
        let door = open_door(rt, path)?;
        Ok(Teller {
            door: Door::new(door),
            places: open_places(rt.alloc())?,
            law,
            place: 0,
            told: GatewayStatus::of(gateway),
            counts: [NO_COUNTS; 30],
            seized: [0u64; 30],
            text: Text::new(),
        })
    }

    // Counts seizures, sends all clients what changed with a record, and passes it on the trunk.
    #[inline(never)]
    fn tell(&mut self, head: &RecordHead, body: &[u8], code: u8, gateway: &Gateway)
        ensures changes { TellsChanges self.old self.new (named head.now body.now) code gateway.now }
        ensures counted { AreCounted self.old.seized self.old.told.rows self.new.told.rows self.new.seized }
        ensures law { self.new.law ≡ self.old.law }
        ensures place { self.new.place ≡ place_after self.old.place (named head.now body.now) }
    {
        let is = GatewayStatus::of(gateway);
        let at = place_after(self.place, head, body);
        count_seizures(&mut self.seized, &self.told.rows, &is.rows);
        self.text.clear();
        push_at(&mut self.text, at);
        let front = self.text.len();
        push_event(&mut self.text, head, body, code);
        let due = are_due(self.place, at);
        report(due, &mut self.told, &is, &mut self.counts, &mut self.text);
        tell_all(&mut self.places, self.text.as_slice(), front, at);
        self.place = at;
    }

    // Gives a free place to a client, and sends it the whole state, of which this is the gateway's.
    fn seat_at(&mut self, free: usize, stream: UnixStream, is: &GatewayStatus)
        requires place { free < 8 }
        requires free { at self.old.places free ≡ None }
        ensures seated { Seats stream self.old.place (whole_state self.old.law self.old.place
            is.now self.old.counts self.old.seized) (at self.new.places free) }
        ensures others { OnlyAt free self.old.places self.new.places }
        ensures same { KeepsPlace self.old self.new }
    {
        self.text.clear();
        whole_state(
            self.law,
            self.place,
            is,
            &self.counts,
            &self.seized,
            &mut self.text,
        );
        self.places[free].seat(stream, self.place, self.text.as_slice());
    }

    // Gives a new client the whole state, if there is a place for it.
    #[inline(never)]
    fn welcome(&mut self, stream: UnixStream, gateway: &Gateway)
        ensures { Welcomes gateway.now stream self.old self.new }
    {
        let Some(free) = free_place(&self.places) else {
            return;
        };
        self.seat_at(free, stream, &GatewayStatus::of(gateway));
    }

    // Whether clients are looked at behind a record that began at this place: if it is of the trunk, each
    // time in the first 32 ms, then each 32 ms. (For each call of accept the system makes a socket, also if
    // nobody waits: each 8 ms this took 5 % of the program's time.)
    fn is_look(&self, head: &RecordHead, before: u64) -> bool
        ensures is { (body : List ℕ) → result ≡ true → IsLook (named head.now body) before self.now }
        ensures not { (body : List ℕ) → result ≡ false
            → IsLook (named head.now body) before self.now → ⊥ }
    {
        match head {
            RecordHead::Trunk => before < LOOK || before / LOOK != self.place / LOOK,
            _ => false,
        }
    }

    // Closes the connections of clients that have gone.
    fn listen(&mut self)
        ensures heard { AllAreHeard self.old.places self.new.places }
        ensures same { KeepsPlace self.old self.new }
    {
        for place in 0..MOST_CLIENTS {
            self.places[place].listen();
        }
    }

    // Accepts a connection, if one waits, and returns it.
    fn accept_one(&mut self) -> Option<UnixStream>
        ensures { AsksDoor self.old self.new }
    {
        self.door.accept()
    }

    // Accepts the connections that wait at the door, eight at most.
    fn let_in(&mut self, gateway: &Gateway)
        ensures { LetsIn gateway.now self.old self.new }
    {
        for _turn in 0..MOST_CLIENTS {
            let Some(stream) = self.accept_one() else {
                return;
            };
            self.welcome(stream, gateway);
        }
    }

    /// Sends all clients that the session has ended.
    pub fn end(&mut self)
        ensures { (k : ℕ) → Gets (at self.old.places k) (at self.new.places k) end_line }
    {
        for place in 0..MOST_CLIENTS {
            self.places[place].give(b"end\n");
        }
    }
}

impl Watch for Teller {
    ghost use Rattle.gw_tell.specs.Telling.{Tells};

    ghost shows = { λ old new look. Tells old new look };

    fn datagram(&mut self, heard: usize, circuit: CircuitNo, octets: &[u8], code: u8) {
        let place = self.place.saturating_add(heard as u64);
        count_datagram(&mut self.counts, circuit, place, octets, code);
    }

    fn after(&mut self, head: &RecordHead, body: &[u8], code: u8, gateway: &Gateway) {
        let before = self.place;
        self.tell(head, body, code, gateway);
        if self.is_look(head, before) {
            self.listen();
            self.let_in(gateway);
        }
    }
}
