//! Clients that give commands: accepted, asked in turn, disconnected; whether the trunk can be read now.

ghost use Rattle.std.specs.Prelude.{◌≡◌, ◌==◌, ◌||◌, ◌&&◌, ◌+◌, ◌<◌, ◌≤◌, ℕ, true, false, length, IfSome};
ghost use Rattle.std.specs.Prelude.{IfNone};
ghost use Rattle.std.specs.List.{list_all};
ghost use Rattle.mio.specs.Event.{event_token, is_read_closed};
ghost use Rattle.mio.specs.Events.{items};
ghost use Rattle.gw_trunk.specs.Clients.{Answers, AreAllKnown, AreWoken, Asks, Gets, GivesAnswer};
ghost use Rattle.gw_trunk.specs.Clients.{IsWokenAt, Looks, MakesRoom, OnlyAt, Places, at, comes, is_quiet};
ghost use Rattle.gw_trunk.specs.Clients.{rank};

use crate::client::{Client, ClientPoll};
use crate::door::Door;
use crate::readiness::Poller;
use mio::event::Event;
use mio::net::{UnixListener, UnixStream};
use mio::{Events, Interest};
use std::io;
use std::net::Net;
use std::time::Duration;

// How many clients there may be at once.
const MOST_CLIENTS: usize = 8;

// How many waiting connections are accepted before the trunk is looked at again.
const MOST_KNOCKS: usize = 8;

// How long it is waited for a device that gives none of what has come.
const A_MOMENT_MS: u64 = 1;

// How long it is waited before the system is asked anew what came before: of a pipe that was closed behind
// its last octets it reports both at once.
const A_WHILE_MS: u64 = 20;

const TRUNK: usize = 0;

const DOOR: usize = 1;

const FIRST_CLIENT: usize = 2;

const END: usize = 10;

/// The clients of a Unix socket, and what all is waited for by.
#[derive(Drop)]
pub struct Clients {
    poller: Poller,
    descriptor: i32,
    // Whether the descriptor can be waited for: a regular file can't be, and never has to be.
    is_waited_for: bool,
    // Whether a read may give a block of what has come: then the system is asked anew before each wait, and
    // else only behind a while.
    gives_blocks: bool,
    // Whether octets may have come from it since it was read.
    octets: bool,
    // Whether the last read took all octets that had come.
    is_drained: bool,
    // Whether it gave none, though octets had come: a device has an event that somebody else takes.
    is_refused: bool,
    door: Door,
    knocks: bool,
    // Whether the end is asked for.
    pub ends: bool,
    pub places: [Option<Client>; 8],
    // The place of the client whose record was the last one, if its answer is to come.
    pub asker: Option<usize>,
    // The place that is asked first.
    next: usize,
    // How many clients came.
    came: u64,
}

// Asks the client at a place, and lets it go if it is to be.
fn ask_one(place: &mut Option<Client>) -> ClientPoll
    ensures { Answers result place.old place.new }
{
    let Some(client) = place else {
        return ClientPoll::Nothing;
    };
    let asked = client.ask();
    if let ClientPoll::Gone = asked {
        *place = None;
    }
    asked
}

// Asks the client at the place of this number, and none else.
fn ask_at(places: &mut [Option<Client>; 8], place: usize) -> ClientPoll
    requires { place < 8 }
    ensures answers { Answers result (at places.old place) (at places.new place) }
    ensures others { OnlyAt place places.old places.new }
    ensures count { length places.new ≡ length places.old }
{
    ask_one(&mut places[place])
}

// Gives the client at a place an answer, and lets it go if it does not take it.
fn answer_one(place: &mut Option<Client>, answer: &[u8])
    ensures { Gets place.old place.new answer.now }
{
    let Some(client) = place else {
        return;
    };
    if client.answer(answer).is_err() {
        *place = None;
    }
}

// Gives the client at the place of this number an answer, and none else.
fn answer_at(places: &mut [Option<Client>; 8], place: usize, answer: &[u8])
    requires { place < 8 }
    ensures gets { Gets (at places.old place) (at places.new place) answer.now }
    ensures others { OnlyAt place places.old places.new }
    ensures count { length places.new ≡ length places.old }
{
    answer_one(&mut places[place], answer);
}

// Wakes the client at a place, who may have left.
fn wake_one(place: &mut Option<Client>, has_left: bool)
    ensures { IsWokenAt true has_left place.old place.new }
{
    if let Some(client) = place {
        client.wake(has_left);
    }
}

// Notes an event, by its token; a client may have left.
fn note(
    event: &Event,
    octets: &mut bool,
    knocks: &mut bool,
    ends: &mut bool,
    places: &mut [Option<Client>; 8],
)
    ensures octets { octets.new ≡ ((event_token event.now).0 == 0 || octets.old) }
    ensures knocks { knocks.new ≡ ((event_token event.now).0 == 1 || knocks.old) }
    ensures ends { ends.new ≡ ((event_token event.now).0 == 10 || ends.old) }
    ensures woken { (k : ℕ) → k < 8 → IsWokenAt ((event_token event.now).0 == k + 2)
        ((event_token event.now).0 == k + 2 && is_read_closed event.now) (at places.old k) (at places.new k) }
{
    let token = event.token().0;
    if token == TRUNK {
        *octets = true;
    }
    if token == DOOR {
        *knocks = true;
    }
    if token == END {
        *ends = true;
    }
    if token >= FIRST_CLIENT && token - FIRST_CLIENT < MOST_CLIENTS {
        wake_one(&mut places[token - FIRST_CLIENT], event.is_read_closed());
    }
}

// Notes events for the trunk, the door, the end and clients, by their tokens.
fn note_all(
    events: &Events,
    octets: &mut bool,
    knocks: &mut bool,
    ends: &mut bool,
    places: &mut [Option<Client>; 8],
)
    ensures octets { octets.new ≡ (comes 0 (items events.now) || octets.old) }
    ensures knocks { knocks.new ≡ (comes 1 (items events.now) || knocks.old) }
    ensures ends { ends.new ≡ (comes 10 (items events.now) || ends.old) }
    ensures woken { AreWoken (items events.now) places.old places.new }
{
    for event in events.iter() {
        note(event, octets, knocks, ends, places);
    }
}

// The rank of a place: a new client takes the lowest, a free one, else that of a client that has left, else
// that of the oldest client that never gave a record.
fn rank(place: &Option<Client>) -> u64
    ensures { result ≡ rank place.now }
{
    match place {
        None => 0,
        Some(client) if client.left => 1,
        Some(client) if client.known => u64::MAX,
        Some(client) => client.number.saturating_add(2),
    }
}

// The place of a new client; None if each has a client that is there and gave a record.
fn place_for_one(places: &[Option<Client>; 8]) -> Option<usize>
    ensures some { IfSome result (MakesRoom places.now) }
    ensures none { IfNone result (AreAllKnown places.now) }
{
    let mut found = None;
    let mut least = u64::MAX;
    for place in 0..MOST_CLIENTS {
        let rank = rank(&places[place]);
        if rank < least {
            found = Some(place);
            least = rank;
        }
    }
    found
}

impl Clients {
    /// Clients who connect to `door`, with none yet, and what a descriptor waits with them, of which a read
    /// may give a block. The error is the system's.
    pub fn open(
        rt: &(impl Net + AllocGlobal),
        descriptor: i32,
        gives_blocks: bool,
        mut door: UnixListener,
    ) -> io::Result<Clients> {
        let mut poller = Poller::open(rt, 16)?;
        let is_waited_for = poller
            .watch_descriptor(descriptor, TRUNK, Interest::READABLE)
            .is_ok();
        poller.watch(&mut door, DOOR)?;
        Ok(Clients {
            poller,
            descriptor,
            is_waited_for,
            gives_blocks,
            octets: false,
            is_drained: false,
            is_refused: false,
            door: Door::new(door),
            knocks: true,
            ends: false,
            places: [None, None, None, None, None, None, None, None],
            asker: None,
            next: 0,
            came: 0,
        })
    }

    /// Has the system report what comes of a descriptor, its end too: that asks for the end. The error is the
    /// system's.
    pub fn watch_end(&mut self, descriptor: i32) -> io::Result<()> {
        self.poller
            .watch_descriptor(descriptor, END, Interest::READABLE)
    }

    // Notes the events of trunk, door, end and clients; waits for them as long as it is asked to.
    fn look(&mut self, limit: Option<Duration>)
        ensures { Looks self.old self.new }
    {
        self.poller.wait(limit);
        note_all(
            &self.poller.events,
            &mut self.octets,
            &mut self.knocks,
            &mut self.ends,
            &mut self.places,
        );
    }

    // The same, once the system was asked to report octets of the trunk that came before.
    fn look_anew(&mut self, limit: Option<Duration>)
        ensures { Looks self.old self.new }
    {
        let _ = self.poller.renew(self.descriptor, Interest::READABLE);
        self.look(limit);
    }

    // Waits until an event of the trunk, the door or a client. Each end answered that it has nothing, and no
    // event has come since.
    fn sleep(&mut self)
        requires octets { self.old.octets ≡ false }
        requires knocks { self.old.knocks ≡ false }
        requires clients { list_all is_quiet self.old.places ≡ true }
    {
        if !self.gives_blocks {
            self.look(Some(Duration::from_millis(A_WHILE_MS)));
            if !self.poller.events.is_empty() {
                return;
            }
        }
        self.look_anew(None);
    }

    /// Waits until something may have come, for the trunk or from a client. It does not wait if an event has
    /// come since the trunk was read and a client was looked for, and only for a moment if the trunk gave
    /// none of what had come.
    pub fn wait(&mut self)
        requires { list_all is_quiet self.old.places ≡ true }
    {
        if self.octets || self.knocks {
            return;
        }
        if self.is_refused {
            self.look(Some(Duration::from_millis(A_MOMENT_MS)));
        } else {
            self.sleep();
        }
    }

    /// Notes that a read of the trunk took all octets that had come, so that the system is not asked for more
    /// before the next wait.
    pub fn note_drained(&mut self) {
        self.is_drained = true;
    }

    /// Notes that a read of the trunk gave none.
    pub fn note_refused(&mut self) {
        self.is_refused = true;
    }

    // Has the system report octets of the trunk, unless some are noted or a read took all.
    fn look_for_octets(&mut self) {
        if !self.octets && !self.is_drained {
            self.look_anew(Some(Duration::ZERO));
        }
    }

    /// Whether the trunk can be read without waiting: octets have come, or its end, as far as the system
    /// reports it. It never waits.
    pub fn can_read(&mut self) -> bool {
        if !self.is_waited_for {
            return true;
        }
        self.look_for_octets();
        self.is_drained = false;
        self.is_refused = false;
        let octets = self.octets;
        self.octets = false;
        octets
    }

    /// Gives the answer to the last record of a client to this client, and to no other.
    pub fn give_answer(&mut self, answer: &[u8])
        ensures { GivesAnswer self.old self.new answer.now }
    {
        let Some(place) = self.asker else {
            return;
        };
        self.asker = None;
        if place < MOST_CLIENTS {
            answer_at(&mut self.places, place, answer);
        }
    }

    // Gives a connection that was accepted a place, if there is one and the system agrees to report it.
    fn place_one(&mut self, mut stream: UnixStream)
        ensures { Places stream self.old self.new }
    {
        let Some(place) = place_for_one(&self.places) else {
            return;
        };
        let watched = self.poller.watch(&mut stream, FIRST_CLIENT + place);
        if watched.is_ok() {
            self.places[place] = Some(Client::new(stream, self.came));
            self.came = self.came.saturating_add(1);
        }
    }

    // Accepts a connection, if one waits, and returns it.
    fn accept_one(&mut self) -> Option<UnixStream> {
        let accepted = self.door.accept();
        if accepted.is_none() {
            self.knocks = false;
        }
        accepted
    }

    // Accepts the connections that wait at the door, eight at most, if somebody knocks.
    fn answer_door(&mut self) {
        for _turn in 0..MOST_KNOCKS {
            if !self.knocks {
                return;
            }
            match self.accept_one() {
                Some(stream) => self.place_one(stream),
                None => return,
            }
        }
    }

    /// Accepts the clients that wait at the door, without waiting. What has come was noted before the trunk
    /// was read; if that is a regular file, it is noted here.
    pub fn let_in(&mut self) {
        if !self.is_waited_for {
            self.look(Some(Duration::ZERO));
        }
        self.answer_door();
    }

    /// The next record of a client. They are asked in turn, from behind the one whose record was the last.
    pub fn ask(&mut self) -> ClientPoll
        ensures asks { Asks result self.old self.new }
        ensures quiet { result ≡ ClientPoll.Nothing → list_all is_quiet self.new.places ≡ true }
    {
        for turn in 0..MOST_CLIENTS {
            let place = (self.next % MOST_CLIENTS + turn) % MOST_CLIENTS;
            match ask_at(&mut self.places, place) {
                ClientPoll::Command(head) => {
                    self.asker = Some(place);
                    self.next = place + 1;
                    return ClientPoll::Command(head);
                }
                ClientPoll::Nothing | ClientPoll::Gone => {}
            }
        }
        ClientPoll::Nothing
    }
}
