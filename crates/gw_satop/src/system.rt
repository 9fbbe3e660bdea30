//! How `satop` waits, for the socket and the trunk until a time, and reports counts (`SystemClock`).

ghost use Rattle.std.specs.Prelude.{◌≡◌, ◌+◌, length};
ghost use Rattle.gw_satop.specs.System.{micros, time_told};

use crate::counts::Counts;
use gw_records::Log;
use gw_trunk::{Poller, Waiting};
use gw_udp::Socket;
use mio::{Interest, Poll, Token};
use std::net::Net;
use std::time::{Duration, Instant};
use std::{io, rt};

const TRUNK: usize = 0;

const FAR_END: usize = 1;

// The descriptor of standard error.
const STDERR: i32 = 2;

/// The clock of this system, the descriptor that the trunk's octets come from, the socket, and standard
/// error.
#[derive(Drop)]
pub struct SystemClock<'r, R> {
    rt: &'r R,
    started: Instant,
    now: u64,
    poller: Poller,
    descriptor: i32,
    errors: Waiting,
    // An octet for each wait.
    waits: Log,
}

// What a clock waits by: the system reports what comes to the socket of the far end there, if it agrees.
fn open_poller<S: Socket>(rt: &(impl Net + AllocGlobal), socket: &mut S) -> io::Result<Poller> {
    let poll = Poll::new(rt)?;
    let _ = socket.watch(&poll, Token(FAR_END));
    Poller::of(rt, poll, 4)
}

// The whole microseconds of a time.
fn micros_of(time: Duration) -> u64
    ensures { result ≡ micros time }
{
    time.as_micros().min(u128::from(u64::MAX)) as u64
}

// The time that is told if this has passed since the start; the last one if the system does not say it.
fn time_told(passed: Option<Duration>, last: u64) -> u64
    ensures { result ≡ time_told passed last }
{
    match passed {
        Some(passed) => micros_of(passed),
        None => last,
    }
}

impl<'r, R: Net + rt::Clock + Eprint + AllocGlobal> SystemClock<'r, R> {
    /// Waits for the socket of the far end and for a descriptor. The error is the system's.
    pub fn open<S: Socket>(
        rt: &'r R,
        descriptor: i32,
        socket: &mut S,
    ) -> io::Result<SystemClock<'r, R>> {
        let mut poller = open_poller(rt, socket)?;
        // (A regular file can't be waited for, and never has to be.)
        let _ = poller.watch_descriptor(descriptor, TRUNK, Interest::READABLE);
        Ok(SystemClock {
            rt,
            started: Instant::now(rt)?,
            now: 0,
            poller,
            descriptor,
            errors: Waiting::open(rt, STDERR, Interest::WRITABLE)?,
            waits: Log::new(),
        })
    }
}

impl<R: rt::Clock + Eprint> SystemClock<'_, R> {
    /// The microseconds since the start.
    pub fn now(&mut self) -> u64
        ensures { self.new.waits ≡ self.old.waits }
    {
        self.now = time_told(self.started.elapsed(self.rt).ok(), self.now);
        self.now
    }

    /// Waits until something may have come, or for this time.
    pub fn wait(&mut self, until: u64)
        ensures { length self.new.waits.octets ≡ length self.old.waits.octets + 1 }
    {
        let left = until.saturating_sub(self.now());
        // (It is registered again each time, so that the system reports what came before.)
        let agreed = self.poller.renew(self.descriptor, Interest::READABLE);
        let limit = Duration::from_micros(if agreed { left } else { 0 });
        self.poller.wait(Some(limit));
        self.waits.append(&[0], 1);
    }

    /// Prints counts on standard error, unless it is full, for which it does not wait.
    pub fn report(&mut self, counts: &Counts)
        ensures { self.new.waits ≡ self.old.waits }
    {
        if self.errors.wait_for(Duration::ZERO) {
            let _ = eprintln!(self.rt; "{}", counts);
        }
    }
}
