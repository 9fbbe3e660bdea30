//! Which datagrams of a circuit wait for their repetition, and which is due (`RecentDatagrams`).

ghost use Rattle.std.specs.Prelude.{◌≡◌, ◌<◌, ◌≤◌, ◌++◌, [], length, take, drop, option_to_list};
ghost use Rattle.std.specs.Prelude.{IfOk, IfSome, OnErr};
ghost use Rattle.gw_state.specs.Memory.{MemoryIsRefused};
ghost use Rattle.std.specs.VecDeque.{deque_capacity};
ghost use Rattle.gw_repeat.specs.Repetition.{continues, with_next};
ghost use Rattle.gw_repeat.specs.Ports.{held_octets};

use crate::packet::Packet;
use rtp_packet::header_in;
use std::alloc::{AllocError, Global};
use std::collections::VecDeque;

// The last consecutive datagrams of a circuit, the latest first.
#[derive(Drop)]
pub(crate) struct RecentDatagrams {
    pub(crate) packets: VecDeque<Packet>,
}

impl RecentDatagrams {
    // An empty queue with room for this many datagrams. The error is that memory was refused.
    #[tactic(auto, unfolding(gw_state::specs::Memory::MemoryIsRefused))]
    pub(crate) fn open(alloc: Global, count: u8) -> Result<RecentDatagrams, AllocError>
        ensures ok { IfOk result (λ h. (h.packets.items ≡ []) × (deque_capacity h.packets ≡ count)) }
        ensures err { OnErr result MemoryIsRefused }
    {
        let packets = VecDeque::with_capacity(alloc, usize::from(count))?;
        Ok(RecentDatagrams { packets })
    }

    // Whether a datagram follows the latest in the queue.
    fn continued_by(&self, words: u8, datagram: &[u8]) -> bool
        requires { 12 ≤ length datagram.now }
        ensures { result ≡ continues words datagram.now (held_octets self.now.packets.items) }
    {
        match self.packets.front() {
            Some(latest) => {
                header_in(datagram).timestamp
                    == header_in(latest.as_slice())
                        .timestamp
                        .wrapping_add(u32::from(words))
            }
            None => false,
        }
    }

    // Takes out the oldest datagram of a full queue.
    fn make_room(&mut self, count: u8) -> Option<Packet>
        requires some { 0 < count }
        requires few { length self.old.packets.items ≤ count }
        ensures parts { self.old.packets.items ≡ self.new.packets.items ++ option_to_list result }
        ensures less { length self.new.packets.items < count }
        ensures full { IfSome result (λ _. length self.old.packets.items ≡ count) }
        ensures capacity { deque_capacity self.new.packets ≡ deque_capacity self.old.packets }
    {
        if self.packets.len() < usize::from(count) {
            return None;
        }
        self.packets.pop_back()
    }

    // Adds a datagram, and drops those that it does not follow.
    //
    // Returns the oldest one of a full queue.
    pub(crate) fn keep(&mut self, count: u8, words: u8, datagram: &[u8]) -> Option<Packet>
        requires some { 0 < count }
        requires few { length self.old.packets.items ≤ count }
        requires room { deque_capacity self.old.packets ≡ count }
        ensures kept { held_octets self.new.packets.items
            ≡ take count (with_next words datagram.now (held_octets self.old.packets.items)) }
        ensures due { held_octets (option_to_list result)
            ≡ drop count (with_next words datagram.now (held_octets self.old.packets.items)) }
        ensures room { deque_capacity self.new.packets ≡ count }
    {
        let Some(packet) = Packet::of(datagram) else {
            self.packets.clear();
            return None;
        };
        if !self.continued_by(words, datagram) {
            self.packets.clear();
        }
        let due = self.make_room(count);
        self.packets.push_front_reserved(packet);
        due
    }
}
