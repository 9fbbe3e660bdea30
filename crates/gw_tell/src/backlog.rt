//! The octets that a client of `--tell` has not taken yet, and when their room is full (`Backlog`).

ghost use Rattle.std.specs.Prelude.{◌≡◌, ◌+◌, ◌≤◌, ◌++◌, length, take};

use std::alloc::{AllocError, Global};

/// How many octets wait for a client at most.
pub const BACKLOG_LEN: usize = 65_536;

/// Octets in their order, in room that is taken once.
#[derive(Drop)]
pub struct Backlog {
    room: Box<[u8; BACKLOG_LEN]>,
    start: usize,
    filled: usize,
    ghost len: { length room.value ≡ 65536 },
    ghost order: { start ≤ filled },
    ghost within: { filled ≤ 65536 },
}

/// There is no room for more octets.
#[derive(Clone, Copy)]
pub struct Full;

// Puts octets behind the first ones of a room.
fn put_behind(room: &mut [u8], filled: usize, octets: &[u8])
    requires { filled + length octets.now ≤ length room.old }
    ensures front { take (filled + length octets.now) room.new ≡ take filled room.old ++ octets.now }
    ensures len { length room.new ≡ length room.old }
{
    room[filled..filled + octets.len()].copy_from_slice(octets);
}

impl Backlog {
    ghost use Rattle.std.specs.Prelude.{◌≡◌, ◌+◌, ◌<◌, ◌≤◌, ◌++◌, [], length, drop, IfOk, OnOk, OnErr};
    ghost use Rattle.gw_tell.specs.Backlog.{waiting};

    /// Room in which nothing waits.
    #[tactic(auto, unfolding(crate::specs::Backlog::waiting))]
    pub fn new(alloc: Global) -> Result<Backlog, AllocError>
        ensures { IfOk result (λ b. waiting b ≡ []) }
    {
        Ok(Backlog {
            room: Box::new(alloc, [0; BACKLOG_LEN])?,
            start: 0,
            filled: 0,
        })
    }

    /// Drops all octets that wait.
    #[tactic(auto, unfolding(crate::specs::Backlog::waiting))]
    pub fn clear(&mut self)
        ensures { waiting self.new ≡ [] }
    {
        self.start = 0;
        self.filled = 0;
    }

    /// The octets that wait for the client.
    #[tactic(auto, unfolding(crate::specs::Backlog::waiting))]
    pub fn octets(&self) -> &[u8]
        ensures { result.now ≡ waiting self.now }
    {
        &self.room[self.start..self.filled]
    }

    /// Drops the first octets, which the client has taken.
    #[tactic(auto, unfolding(crate::specs::Backlog::waiting))]
    pub fn pass(&mut self, len: usize)
        requires { len ≤ length (waiting self.old) }
        ensures { waiting self.new ≡ drop len (waiting self.old) }
    {
        self.start += len;
    }

    // Moves what waits to the front of the room.
    #[tactic(auto, unfolding(crate::specs::Backlog::waiting))]
    fn compact(&mut self)
        ensures waits { waiting self.new ≡ waiting self.old }
        ensures filled { self.new.filled ≡ length (waiting self.old) }
    {
        self.room.copy_within(self.start..self.filled, 0);
        self.filled -= self.start;
        self.start = 0;
    }

    // Puts octets behind those that wait, if there is room.
    #[tactic(auto, unfolding(crate::specs::Backlog::waiting))]
    fn append(&mut self, octets: &[u8])
        requires { self.old.filled + length octets.now ≤ 65536 }
        ensures { waiting self.new ≡ waiting self.old ++ octets.now }
    {
        put_behind(self.room.as_mut_slice(), self.filled, octets);
        self.filled += octets.len();
    }

    /// Puts octets behind those that wait, if there is room for all of them.
    #[tactic(auto, unfolding(crate::specs::Backlog::waiting))]
    pub fn push(&mut self, octets: &[u8]) -> Result<(), Full>
        ensures ok { OnOk result (waiting self.new ≡ waiting self.old ++ octets.now) }
        ensures full { OnErr result (65536 < length (waiting self.old) + length octets.now) }
        ensures stays { OnErr result (waiting self.new ≡ waiting self.old) }
    {
        if BACKLOG_LEN - (self.filled - self.start) < octets.len() {
            return Err(Full);
        }
        if BACKLOG_LEN - self.filled < octets.len() {
            self.compact();
        }
        self.append(octets);
        Ok(())
    }
}
