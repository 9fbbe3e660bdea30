//! What the system is asked to report, and what it reports (`Poller`).

use mio::event::Source;
use mio::unix::SourceFd;
use mio::{Events, Interest, Poll, Token};
use std::io;
use std::net::Net;
use std::time::Duration;

/// What is waited by, and the events that the system reported last. Nobody else asks it anything, so what is
/// to be reported stays so.
#[derive(Drop)]
pub struct Poller {
    poll: Poll,
    pub events: Events,
}

impl Poller {
    /// What is waited by, for this many events at once. The error is the system's.
    pub fn open(rt: &(impl Net + AllocGlobal), capacity: usize) -> io::Result<Poller> {
        let poll = Poll::new(rt)?;
        Poller::of(rt, poll, capacity)
    }

    /// What is waited by a poll. The error is that memory is refused.
    pub fn of(rt: &impl AllocGlobal, poll: Poll, capacity: usize) -> io::Result<Poller> {
        let events = Events::with_capacity(rt.alloc(), capacity)?;
        Ok(Poller { poll, events })
    }

    /// Has the system report what comes of a source under this token. The error is the system's.
    pub fn watch<S: Source>(&mut self, source: &mut S, token: usize) -> io::Result<()>
        ensures { S.keeps source.old source.new }
    {
        let registry = self.poll.registry();
        registry.register(source, Token(token), Interest::READABLE)
    }

    /// Has the system report what comes of a descriptor under this token. The error is the system's.
    pub fn watch_descriptor(
        &mut self,
        descriptor: i32,
        token: usize,
        interest: Interest,
    ) -> io::Result<()> {
        let registry = self.poll.registry();
        let source = &mut SourceFd(&descriptor);
        registry.register(source, Token(token), interest)
    }

    /// Has the system report anew what came of a descriptor before, and returns whether it agrees.
    pub fn renew(&mut self, descriptor: i32, interest: Interest) -> bool {
        let registry = self.poll.registry();
        let source = &mut SourceFd(&descriptor);
        registry.reregister(source, Token(0), interest).is_ok()
    }

    /// Waits once for events, for this time at most. There are none if the system refuses.
    pub fn wait(&mut self, limit: Option<Duration>) {
        let _ = self.poll.poll(&mut self.events, limit);
    }

    /// Waits once for events, for this time at most. Returns whether something may have come: the system
    /// reported it, or refused to wait.
    pub fn may_have_come(&mut self, limit: Duration) -> bool {
        match self.poll.poll(&mut self.events, Some(limit)) {
            Ok(()) => !self.events.is_empty(),
            Err(_) => true,
        }
    }
}
