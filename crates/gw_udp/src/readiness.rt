//! Which receives of circuits ask the system, by what it says has come (`Readiness`).

ghost use Rattle.std.specs.Prelude.{◌≡◌, ◌==◌, ◌-◌, ◌<◌, ◌≤◌, ℕ, slice_set, if◌then◌else◌};
ghost use Rattle.mio.specs.Events.{items};
ghost use Rattle.gw_udp.specs.Resting.{AreNoted, AsksSystem, rests_of};

use crate::socket::Socket;
use g704_cas::CircuitNo;
use mio::{Events, Poll, Token};
use std::alloc::Global;
use std::io;
use std::net::Net;
use std::time::Duration;

// A few more than the receives of a trunk in 1 ms (thirty circuits, eight octets each), so that a record of
// 1 ms asks once.
const RECEIVES: u8 = 250;

// How many receives of a circuit rest after one that found none. A circuit receives once in each frame of the
// trunk, so with these it asks once a millisecond.
const RESTS: u16 = 7;

// The same if the system says what comes: with these a circuit asks at least each 100 ms.
const WATCHED_RESTS: u16 = 799;

// The system's readiness of sockets (epoll), which never waits here.
#[derive(Drop)]
struct Poller {
    poll: Poll,
    events: Events,
}

/// When each circuit asks the system for a datagram.
///
/// After a receive that found none, the next seven rest: they find none by themselves. If the system says what
/// comes to the socket, the next 799 do, which is 100 ms, unless something comes. A datagram that comes
/// meanwhile stays in the socket, and is received up to seven octets of its circuit later, 0.9 ms. No receive
/// rests after one that gave a datagram, or discarded a stranger's, so those that wait are received one after
/// the other. The system is asked what came before each trunk record and once in 250 receives, of all circuits
/// together.
#[derive(Drop)]
pub(crate) struct Readiness {
    poller: Option<Poller>,
    // How many receives of each circuit rest from now on.
    rests: [u16; 30],
    // How many rest after one that found none.
    most: [u16; 30],
    receives: u8,
    ghost few: { (k : ℕ) → k < 30 → rests_of rests k ≤ 799 },
    ghost bound: { (k : ℕ) → k < 30 → rests_of most k ≤ 799 },
}

// Opens the system's poller of sockets. The error is the system's.
fn open_poller(net: &impl Net, alloc: Global) -> io::Result<Poller> {
    let poll = Poll::new(net)?;
    let events = Events::with_capacity(alloc, 30)?;
    Ok(Poller { poll, events })
}

// Notes the socket of an event, whose token is its circuit's number less 1.
#[tactic(auto, using(crate::proofs::Noting::one_noted))]
fn note(token: usize, rests: &mut [u16; 30])
    ensures { (k : ℕ) → k < 30 → rests_of rests.new k ≡ (if token == k then 0 else rests_of rests.old k) }
{
    if token < 30 {
        rests[token] = 0;
    }
}

// Notes the sockets of events.
fn note_all(events: &Events, rests: &mut [u16; 30])
    ensures { AreNoted (items events.now) rests.old rests.new }
{
    for event in events.iter() {
        note(event.token().0, rests);
    }
}

// Notes the sockets that datagrams have come to since this was last called, without a wait. There are no
// events if the system refuses.
#[inline(never)]
fn ask_system(poller: &mut Option<Poller>, rests: &mut [u16; 30])
    ensures { AsksSystem rests.old rests.new }
{
    let Some(poller) = poller else {
        return;
    };
    let _ = poller.poll.poll(&mut poller.events, Some(Duration::ZERO));
    note_all(&poller.events, rests);
}

impl Readiness {
    ghost use Rattle.gw_udp.specs.Ready.{IsCounted, IsTurn};

    /// The readiness of sockets, with none watched yet. If the system has none, nothing ever comes by it.
    pub(crate) fn open(net: &impl Net, alloc: Global) -> Readiness {
        Readiness {
            poller: open_poller(net, alloc).ok(),
            rests: [0; 30],
            most: [WATCHED_RESTS; 30],
            receives: 0,
        }
    }

    /// Has the system say what comes to the socket of the circuit of this number, and returns whether it does.
    pub(crate) fn watch<S: Socket>(&mut self, circuit: u8, socket: &mut S) -> bool
        requires { (1 ≤ circuit) × (circuit ≤ 30) }
        ensures most { self.new.most ≡ slice_set self.old.most (circuit - 1) (if result then 799 else 7) }
    {
        let at = usize::from(circuit) - 1;
        let watched = match &self.poller {
            Some(poller) => socket.watch(&poller.poll, Token(at)),
            None => false,
        };
        self.most[at] = if watched { WATCHED_RESTS } else { RESTS };
        watched
    }

    /// Asks the system which sockets datagrams have come to. The next 249 receives ask it no more.
    pub(crate) fn look(&mut self)
        ensures asks { AsksSystem self.old.rests self.new.rests }
        ensures counts { self.new.receives ≡ 0 }
        ensures most { self.new.most ≡ self.old.most }
    {
        self.receives = 0;
        ask_system(&mut self.poller, &mut self.rests);
    }

    // Counts a receive. The 250th since the system was last asked asks it.
    #[inline]
    fn count(&mut self)
        ensures { IsCounted self.old self.new }
    {
        if self.receives < RECEIVES - 1 {
            self.receives += 1;
        } else {
            self.look();
        }
    }

    /// Counts a receive of a circuit, and returns whether it rests.
    #[inline]
    pub(crate) fn rests(&mut self, circuit: CircuitNo) -> bool
        ensures { IsTurn self.old self.new circuit result }
    {
        self.count();
        let at = usize::from(circuit.get()) - 1;
        if self.rests[at] == 0 {
            return false;
        }
        self.rests[at] -= 1;
        true
    }

    /// Has receives of a circuit rest after one that asked, if it found none at the socket.
    pub(crate) fn rest_after(&mut self, circuit: CircuitNo, none_there: bool)
        ensures rests { self.new.rests ≡ slice_set self.old.rests (circuit - 1)
            (if none_there then rests_of self.old.most (circuit - 1) else 0) }
        ensures most { self.new.most ≡ self.old.most }
        ensures receives { self.new.receives ≡ self.old.receives }
    {
        let at = usize::from(circuit.get()) - 1;
        self.rests[at] = if none_there { self.most[at] } else { 0 };
    }
}
