//! How a descriptor is waited for, with or without a time limit (`Waiting`).

use crate::readiness::Poller;
use mio::Interest;
use std::io;
use std::net::Net;
use std::time::Duration;

// How long it is waited for a device that gives or takes nothing, though it could.
const A_MOMENT_MS: u64 = 1;

/// Waits for one descriptor of the system, which the caller keeps open.
#[derive(Drop)]
pub struct Waiting {
    poller: Poller,
    descriptor: i32,
    interest: Interest,
    // Whether the last wait has ended and nothing came of it since: a device may have an event that somebody
    // else takes.
    is_refused: bool,
}

impl Waiting {
    /// Waits for a descriptor in the way of `interest`. The error is the system's.
    pub fn open(
        rt: &(impl Net + AllocGlobal),
        descriptor: i32,
        interest: Interest,
    ) -> io::Result<Waiting> {
        let mut poller = Poller::open(rt, 1)?;
        // (A regular file can't be waited for, and never has to be.)
        let _ = poller.watch_descriptor(descriptor, 0, interest);
        Ok(Waiting {
            poller,
            descriptor,
            interest,
            is_refused: false,
        })
    }

    /// Notes that something came of a wait.
    pub fn note_moved(&mut self) {
        self.is_refused = false;
    }

    /// Waits for a moment if the last wait has ended and nothing came of it; returns whether it did.
    pub fn rest(&mut self) -> bool {
        if !self.is_refused {
            return false;
        }
        self.is_refused = false;
        self.poller.wait(Some(Duration::from_millis(A_MOMENT_MS)));
        true
    }

    /// Waits until the descriptor is ready, or a signal comes; or it rests. (It is registered again each
    /// time, so that the system reports what came before.)
    pub fn wait(&mut self) {
        if self.rest() {
            return;
        }
        if self.poller.renew(self.descriptor, self.interest) {
            self.poller.wait(None);
            self.is_refused = true;
        }
    }

    /// Waits until the descriptor is ready, for this time at most, or a signal comes. Returns whether it may
    /// be ready: the system reported it, or refused to wait.
    pub fn wait_for(&mut self, limit: Duration) -> bool {
        self.is_refused = true;
        if !self.poller.renew(self.descriptor, self.interest) {
            return true;
        }
        self.is_refused = self.poller.may_have_come(limit);
        self.is_refused
    }
}
