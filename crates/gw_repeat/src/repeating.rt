//! When a datagram of a circuit is sent again, behind a later one (`Repeating`).

ghost use Rattle.std.specs.Prelude.{◌≡◌, ◌<◌, ◌≤◌, ◌-◌, ◌+◌, [], length, drop, vec_len, slice_index};
ghost use Rattle.std.specs.Prelude.{slice_index_or, take, ℕ, IfOk, IfSome, OnErr, vec_capacity};
ghost use Rattle.gw_state.specs.Memory.{MemoryIsRefused};
ghost use Rattle.gw_records.specs.Ports.{Receives, Sends, CountsFault, KeepsSends, KeepsReceives, IfKnown};
ghost use Rattle.gw_repeat.specs.declared.held.RecentDatagrams.{RecentDatagrams};
ghost use Rattle.gw_repeat.specs.Words.{HasPacketWords};
ghost use Rattle.gw_repeat.specs.Ports.{HasRepeated, IsHeld, AreHeld, SendsAgain, KeepsOthers, held_of};
ghost use Rattle.gw_repeat.specs.Ports.{HasRoom, run_with, told};

use crate::held::RecentDatagrams;
use g704_cas::CircuitNo;
use gw_circuit::CircuitConfig;
use gw_records::{AtStart, Log, PortFault, Ports};
use std::alloc::{AllocError, Global};

const CIRCUITS: usize = 30;

/// The greatest distance of a repetition, in datagrams.
pub const MOST: u8 = 8;

/// Ports over other ports that send each datagram twice.
///
/// A datagram goes to the ports below when it is sent, and again behind the one sent this many datagrams
/// later, if all from it on are consecutive by their timestamps. Receives pass through. The original ports
/// and all calls are ghost data.
#[derive(Drop)]
pub struct Repeating<P: Ports> {
    pub(crate) ports: P,
    pub(crate) count: u8,
    pub(crate) words: [u8; 30],
    held: Vec<RecentDatagrams>,
    send_failed: u64,
    pub(crate) opened: AtStart<P>,
    pub(crate) log: Log,
    ghost thirty: { vec_len held ≡ 30 },
    ghost memory: { vec_capacity held ≡ 30 },
    ghost are_held: { AreHeld count words log.calls held.items },
    ghost repeated: { ∥ IfKnown (P.tells opened.value).calls (P.tells ports).calls
        (HasRepeated count words log.calls) ∥₁ },
}

// How many datagrams later one is sent again, and the words of a packet of each circuit.
#[derive(Drop)]
struct Distance<'a> {
    count: u8,
    words: &'a [u8; 30],
}

// Sends the circuit's datagram that is due behind this one, if there is one.
//
// A failure changes nothing: the ports below count it.
#[inline(never)]
fn send_due<P: Ports>(
    ports: &mut P,
    held: &mut [RecentDatagrams],
    behind: &Distance,
    circuit: CircuitNo,
    datagram: &[u8],
)
    requires thirty { length held.old ≡ 30 }
    requires some { 0 < behind.now.count }
    requires few { (d : RecentDatagrams)
        → length (slice_index_or held.old (circuit - 1) d).packets.items ≤ behind.now.count }
    requires room { HasRoom behind.now.count circuit held.old }
    ensures sends { (d : RecentDatagrams) → SendsAgain (P.tells ports.old) (P.tells ports.new) circuit
        (drop behind.now.count (run_with behind.now.words.now circuit datagram.now held.old d)) }
    ensures own { (d : RecentDatagrams) → held_of circuit held.new d
        ≡ take behind.now.count (run_with behind.now.words.now circuit datagram.now held.old d) }
    ensures room { HasRoom behind.now.count circuit held.new }
    ensures others { KeepsOthers circuit held.old held.new }
    ensures in_range { (1 ≤ circuit) × (circuit ≤ 30) }
{
    let place = usize::from(circuit.get()) - 1;
    if let Some(again) = held[place].keep(behind.count, behind.words[place], datagram) {
        let _ = ports.send(circuit, again.as_slice());
    }
}

/// The words of a packet of each circuit.
pub fn packet_words(circuits: &[CircuitConfig; 30]) -> [u8; 30]
    ensures { HasPacketWords circuits.now result }
{
    let mut words = [0u8; CIRCUITS];
    for (place, circuit) in circuits.iter().enumerate() {
        words[place] = 8 * circuit.ptime;
    }
    words
}

// Room for the queue of each circuit. The error is that memory was refused.
#[tactic(auto, unfolding(gw_state::specs::Memory::MemoryIsRefused))]
fn open_room(alloc: Global) -> Result<Vec<RecentDatagrams>, AllocError>
    ensures empty { IfOk result (λ room. room.items ≡ []) }
    ensures memory { IfOk result (λ room. vec_capacity room ≡ 30) }
    ensures err { OnErr result MemoryIsRefused }
{
    Vec::with_capacity(alloc, CIRCUITS)
}

impl<P: Ports + Drop> Repeating<P> {
    /// Wraps ports so that each datagram is sent twice.
    ///
    /// It is sent again behind the one this many later, or never if that is 0. The words are those of a
    /// packet of each circuit.
    pub fn open(
        alloc: Global,
        ports: P,
        count: u8,
        words: [u8; 30],
    ) -> Result<Repeating<P>, AllocError>
        ensures ok { IfOk result (λ r. (r.ports ≡ ports) × (r.opened.value ≡ ports) × (r.count ≡ count)
            × (r.words ≡ words) × (r.log.calls ≡ [])) }
        ensures err { OnErr result MemoryIsRefused }
    {
        let mut held = open_room(alloc)?;
        for _circuit in 0..CIRCUITS {
            held.push_reserved(RecentDatagrams::open(alloc, count)?);
        }
        let opened = AtStart::of(&ports);
        Ok(Repeating {
            ports,
            count,
            words,
            held,
            send_failed: 0,
            opened,
            log: Log::new(),
        })
    }
}

impl<P: Ports> Ports for Repeating<P> {
    ghost tells = { λ r. told (P.tells r.ports) r.send_failed r.log.calls };

    fn look(&mut self) {
        self.ports.look();
    }

    fn follows_calls(&self) -> bool {
        self.ports.follows_calls()
    }

    fn judge(&mut self, circuit: CircuitNo, accepted: bool) {
        self.ports.judge(circuit, accepted);
    }

    fn close(&mut self, circuit: CircuitNo) {
        self.ports.close(circuit);
    }

    #[inline]
    fn receive(&mut self, circuit: CircuitNo, room: &mut [u8]) -> Result<Option<usize>, PortFault>
        requires { 65536 ≤ length room.old }
        ensures bound { IfOk result (λ got. IfSome got (λ n. n ≤ length room.new)) }
        ensures receives { Receives
            (told (P.tells self.old.ports) self.old.send_failed self.old.log.calls)
            (told (P.tells self.new.ports) self.new.send_failed self.new.log.calls) circuit result room.new }
        ensures counts { CountsFault (P.tells self.old.ports).receive_failures
            (P.tells self.new.ports).receive_failures result }
        ensures sends_stay { KeepsSends
            (told (P.tells self.old.ports) self.old.send_failed self.old.log.calls)
            (told (P.tells self.new.ports) self.new.send_failed self.new.log.calls) }
    {
        let received = self.ports.receive(circuit, room);
        self.log.received(circuit, &received, room);
        received
    }

    fn send(&mut self, circuit: CircuitNo, datagram: &[u8]) -> Result<(), PortFault>
        ensures sends { Sends
            (told (P.tells self.old.ports) self.old.send_failed self.old.log.calls)
            (told (P.tells self.new.ports) self.new.send_failed self.new.log.calls)
            circuit result datagram.now }
        ensures counts { CountsFault self.old.send_failed self.new.send_failed result }
        ensures receives_stay { KeepsReceives
            (told (P.tells self.old.ports) self.old.send_failed self.old.log.calls)
            (told (P.tells self.new.ports) self.new.send_failed self.new.log.calls) }
    {
        let sent = self.ports.send(circuit, datagram);
        self.log.sent(circuit, datagram, &sent);
        if sent.is_err() {
            self.send_failed = self.send_failed.saturating_add(1);
        }
        if self.count > 0 {
            let behind = Distance {
                count: self.count,
                words: &self.words,
            };
            let held = self.held.as_mut_slice();
            send_due(&mut self.ports, held, &behind, circuit, datagram);
        }
        sent
    }
}
