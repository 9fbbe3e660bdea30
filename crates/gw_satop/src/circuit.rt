//! A turn of an emulated circuit: receives, plays what is due, sends (`SatopCircuit`).

ghost use Rattle.std.specs.Prelude.{◌≡◌, ◌⊎◌, ◌++◌, ◌∷◌, ◌+◌, ◌<◌, ◌≤◌, [], ℕ, Bool, List, length, drop};
ghost use Rattle.std.specs.Prelude.{true, false, nat_lt, IfOk, IfErr};
ghost use Rattle.gw_satop.specs.declared.line.Receiver.{Receiver};
ghost use Rattle.gw_satop.specs.declared.pace.PlayClock.{PlayClock};
ghost use Rattle.gw_satop.specs.Doing.{HasHeardAll, HearsAll, IsDueNow, PlaysDue};
ghost use Rattle.gw_satop.specs.Doing.{RefusesOctets};
ghost use Rattle.gw_satop.specs.FarEnd.{HasFoundNone};
ghost use Rattle.gw_satop.specs.Session.{HasNoTraffic, HasSettings, PlaysAll, SendsAll};
ghost use Rattle.gw_satop.specs.Counts.{counts_by_play, no_counts, CountsSends};
ghost use Rattle.gw_satop.specs.Line.{HasPlayed};
ghost use Rattle.gw_satop.specs.Pace.{HasListened, KeepsTime, after_play, is_due, new_pace, next_time};
ghost use Rattle.satop_playout.specs.Calls.{PlayoutCall};
ghost use Rattle.satop_playout.specs.Plays.{is_there, reach_after};

use crate::counts::Counts;
use crate::line::Receiver;
use crate::pace::PlayClock;
use crate::peer::UdpPeer;
use crate::sender::Sender;
use arrayvec::ArrayVec;
use gw_trunk::{DeviceFault, DeviceRead, TrunkInput, TrunkOutput};
use gw_udp::Socket;
use satop_playout::MAX_SIZE;

// Room for a datagram, and for a read of the trunk: 8 ms.
const ROOM_LEN: usize = 2_048;

// The datagrams of one turn.
const MOST_DATAGRAMS: usize = 1_000;

// The plays of one turn.
const MOST_PLAYS: usize = 8_192;

/// An emulated circuit: the octets of a trunk on one side, packets to and from the far end on the other.
#[derive(Drop)]
pub struct SatopCircuit<I: TrunkInput, O: TrunkOutput, S: Socket> {
    incoming: I,
    outgoing: O,
    peer: UdpPeer<S>,
    receiver: Receiver,
    sender: Sender,
    pace: PlayClock,
    counts: Counts,
    // played, and not taken by the trunk yet
    left: ArrayVec<u8, 1280>,
    ghost plays: { ∥ PlaysAll receiver pace counts sender.log.flags peer.received.datagrams
        (O.went outgoing ++ left.items) ∥₁ },
    ghost sends: { SendsAll sender peer.sent.datagrams (I.came incoming) },
    ghost counted: { ∥ CountsSends counts sender.log.flags peer.sent.flags ∥₁ },
}

// Drops the first octets that are left for the trunk.
fn drop_first(left: &mut ArrayVec<u8, 1280>, len: usize)
    requires { len ≤ length left.old.items }
    ensures { left.new.items ≡ drop len left.old.items }
{
    let mut rest = ArrayVec::new();
    let _ = rest.try_extend_from_slice(&left.as_slice()[len..]);
    *left = rest;
}

// Gives the trunk what is left for it, all of it; it waits until the trunk takes it.
fn put_out<O: TrunkOutput>(
    outgoing: &mut O,
    left: &mut ArrayVec<u8, 1280>,
) -> Result<(), DeviceFault>
    ensures went { O.went outgoing.new ++ left.new.items ≡ O.went outgoing.old ++ left.old.items }
    ensures all { IfOk result (λ _. left.new.items ≡ []) }
    ensures fault { IfErr result (λ _. RefusesOctets O.has_failed O.has_taken O.waits outgoing.new) }
{
    for _turn in 0..u64::MAX {
        if left.is_empty() {
            return Ok(());
        }
        match outgoing.write(left.as_slice()) {
            Ok(Some(0)) => return Err(DeviceFault),
            Ok(Some(n)) => drop_first(left, n),
            Ok(None) => outgoing.wait(),
            Err(fault) => return Err(fault),
        }
    }
    Err(DeviceFault)
}

// Plays the next packet, which is due, by a room of its size; it is then left for the trunk.
fn play_into(
    receiver: &mut Receiver,
    pace: &mut PlayClock,
    counts: &mut Counts,
    room: &mut [u8],
    left: &mut ArrayVec<u8, 1280>,
)
    requires room { length room.old ≡ receiver.old.settings.size }
    requires left { left.old.items ≡ [] }
    requires due { IsDueNow receiver.old pace.old }
    ensures settings { receiver.new.settings ≡ receiver.old.settings }
    ensures rtp { receiver.new.rtp ≡ receiver.old.rtp }
    ensures pace { KeepsTime pace.old pace.new }
    ensures left { length left.new.items ≡ length room.new }
    ensures sent { counts.new.sent ≡ counts.old.sent }
    ensures unsent { counts.new.unsent ≡ counts.old.unsent }
    ensures plays { (flags : List Bool) (received : List (List ℕ)) (went : List ℕ)
        → PlaysAll receiver.old pace.old counts.old flags received (went ++ left.old.items)
        → PlaysAll receiver.new pace.new counts.new flags received (went ++ left.new.items) }
{
    let later = receiver.reach() > 0;
    let is_there = receiver.play(room);
    let _ = left.try_extend_from_slice(room);
    counts.play(is_there, later, pace.is_silent());
    pace.play();
}

// Sends octets of the trunk as packets. `missing` is whether packets are missing at this end.
fn send_all<S: Socket>(
    sender: &mut Sender,
    peer: &mut UdpPeer<S>,
    counts: &mut Counts,
    missing: bool,
    octets: &[u8],
)
    requires { SendsAll sender.old peer.old.sent.datagrams sender.old.came.octets }
    ensures sends { SendsAll sender.new peer.new.sent.datagrams (sender.old.came.octets ++ octets.now) }
    ensures received { peer.new.received.datagrams ≡ peer.old.received.datagrams }
    ensures start { sender.new.start ≡ sender.old.start }
    ensures counted { CountsSends counts.old sender.old.log.flags peer.old.sent.flags
        → CountsSends counts.new sender.new.log.flags peer.new.sent.flags }
    ensures plays { (receiver : Receiver) (pace : PlayClock) (received : List (List ℕ)) (went : List ℕ)
        → missing ≡ pace.silent
        → PlaysAll receiver pace counts.old sender.old.log.flags received went
        → PlaysAll receiver pace counts.new sender.new.log.flags received went }
{
    let mut packet = ArrayVec::new();
    let mut at = 0;
    while at < octets.len() {
        at += sender.fill(&octets[at..]);
        if sender.packet(missing, &mut packet) {
            counts.send(peer.send(packet.as_slice()));
        }
    }
}

impl<I: TrunkInput, O: TrunkOutput, S: Socket> SatopCircuit<I, O, S> {
    ghost use Rattle.gw_satop.specs.Playing.{OnlyFlushes, OnlyPlays};

    /// A circuit before any octet and datagram.
    pub fn new(
        incoming: I,
        outgoing: O,
        peer: UdpPeer<S>,
        receiver: Receiver,
        sender: Sender,
        pace: PlayClock,
    ) -> SatopCircuit<I, O, S>
        requires ends { HasNoTraffic (I.came incoming) (O.went outgoing) peer.received.datagrams
            peer.sent.datagrams }
        requires receiver { HasPlayed receiver [] }
        requires pace { pace ≡ new_pace pace.timing pace.counted }
        requires sender { sender.came.octets ≡ [] }
        ensures receiver { result.receiver ≡ receiver }
        ensures sender { result.sender ≡ sender }
        ensures pace { result.pace ≡ pace }
    {
        SatopCircuit {
            incoming,
            outgoing,
            peer,
            receiver,
            sender,
            pace,
            counts: Counts::new(),
            left: ArrayVec::new(),
        }
    }

    /// Whether the trunk has taken all that was played.
    pub fn is_whole(&self) -> bool
        ensures yes { result ≡ true → self.now.left.items ≡ [] }
        ensures no { self.now.left.items ≡ [] → result ≡ true }
    {
        self.left.is_empty()
    }

    /// The counts of the circuit.
    pub fn counts(&self) -> Counts
        ensures { result ≡ self.now.counts }
    {
        self.counts
    }

    // Moves the circuit's clock to the time of this turn.
    fn advance(&mut self, now: u64)
        ensures same { HasSettings self.old.receiver self.new.receiver self.old.sender self.new.sender
            self.old.pace self.new.pace }
        ensures time { self.new.pace.counted ≡ now }
        ensures peer { self.new.peer ≡ self.old.peer }
        ensures incoming { self.new.incoming ≡ self.old.incoming }
        ensures outgoing { self.new.outgoing ≡ self.old.outgoing }
        ensures left { self.new.left ≡ self.old.left }
    {
        self.pace.advance(now);
    }

    // Receives a datagram, if one waits.
    fn hear(&mut self) -> bool
        ensures same { HasSettings self.old.receiver self.new.receiver self.old.sender self.new.sender
            self.old.pace self.new.pace }
        ensures heard { result ≡ true → (datagram : List ℕ)
            × (self.new.peer.received.datagrams ≡ self.old.peer.received.datagrams ++ datagram ∷ []) }
        ensures none { result ≡ false → HasFoundNone S.receives self.new.peer.socket
            × (self.new.peer.received.datagrams ≡ self.old.peer.received.datagrams) }
        ensures time { self.new.pace.counted ≡ self.old.pace.counted }
        ensures incoming { self.new.incoming ≡ self.old.incoming }
        ensures outgoing { self.new.outgoing ≡ self.old.outgoing }
        ensures left { self.new.left ≡ self.old.left }
    {
        let mut room = [0u8; ROOM_LEN];
        let Some(n) = self.peer.receive(&mut room) else {
            return false;
        };
        let control = self.receiver.control(&room[..n]);
        let now = self.pace.now();
        let outcome = self.receiver.receive(&mut self.pace, now, &room[..n]);
        self.counts.receive(outcome);
        self.counts.bits(control);
        true
    }

    /// Gives the trunk the played octets that are left for it.
    pub fn flush(&mut self) -> Result<(), DeviceFault>
        ensures all { IfOk result (λ _. self.new.left.items ≡ []) }
        ensures fault { IfErr result (λ _. RefusesOctets O.has_failed O.has_taken O.waits self.new.outgoing) }
        ensures only { OnlyFlushes self.old self.new }
        ensures octets { O.went self.new.outgoing ++ self.new.left.items
            ≡ O.went self.old.outgoing ++ self.old.left.items }
    {
        put_out(&mut self.outgoing, &mut self.left)
    }

    // Whether a packet is due.
    fn is_due(&self) -> bool
        ensures { (calls : List PlayoutCall) → HasPlayed self.now.receiver calls
            → result ≡ is_due self.now.pace
            self.now.pace.counted (reach_after self.now.receiver.settings calls) }
    {
        self.pace.is_due(self.pace.now(), self.receiver.reach())
    }

    // Plays the next packet, which is due, and is then left for the trunk.
    fn play_next(&mut self)
        requires left { self.old.left.items ≡ [] }
        requires due { IsDueNow self.old.receiver self.old.pace }
        ensures only { OnlyPlays self.old self.new }
        ensures outgoing { self.new.outgoing ≡ self.old.outgoing }
        ensures left { length self.new.left.items ≡ self.old.receiver.settings.size }
    {
        let mut room = [0u8; MAX_SIZE];
        let size = self.receiver.size();
        play_into(
            &mut self.receiver,
            &mut self.pace,
            &mut self.counts,
            &mut room[..size],
            &mut self.left,
        );
    }

    // Plays the next packet, which is due, to the trunk.
    fn play(&mut self) -> Result<(), DeviceFault>
        requires due { IsDueNow self.old.receiver self.old.pace }
        ensures only { OnlyPlays self.old self.new }
        ensures octets { IfOk result (λ _. length (O.went self.new.outgoing ++ self.new.left.items)
            ≡ length (O.went self.old.outgoing ++ self.old.left.items) + self.old.receiver.settings.size) }
        ensures all { IfOk result (λ _. self.new.left.items ≡ []) }
        ensures fault { IfErr result (λ _. RefusesOctets O.has_failed O.has_taken O.waits self.new.outgoing) }
    {
        self.flush()?;
        self.play_next();
        self.flush()
    }

    // Plays the packets that are due.
    fn play_due(&mut self) -> Result<(), DeviceFault>
        ensures only { OnlyPlays self.old self.new }
        ensures plays { IfOk result (λ _. PlaysDue self.new.receiver self.new.pace
            self.old.receiver.settings.size (O.went self.old.outgoing ++ self.old.left.items)
            (O.went self.new.outgoing ++ self.new.left.items)) }
        ensures grows { IfOk result (λ _. length (O.went self.old.outgoing ++ self.old.left.items)
            ≤ length (O.went self.new.outgoing ++ self.new.left.items)) }
        ensures all { IfOk result (λ _. self.old.left.items ≡ [] → self.new.left.items ≡ []) }
        ensures fault { IfErr result (λ _. RefusesOctets O.has_failed O.has_taken O.waits self.new.outgoing) }
    {
        for _play in 0..MOST_PLAYS {
            if !self.is_due() {
                return Ok(());
            }
            self.play()?;
        }
        Ok(())
    }

    // Takes octets of the trunk that have come, and sends them. Returns whether no octet will come any more.
    fn take(&mut self) -> Result<bool, DeviceFault>
        ensures same { HasSettings self.old.receiver self.new.receiver self.old.sender self.new.sender
            self.old.pace self.new.pace }
        ensures ended { IfOk result (λ ended. ended ≡ true → I.has_ended self.new.incoming) }
        ensures fault { IfErr result (λ _. I.has_failed self.new.incoming) }
        ensures received { self.new.peer.received.datagrams ≡ self.old.peer.received.datagrams }
        ensures receiver { self.new.receiver ≡ self.old.receiver }
        ensures pace { self.new.pace ≡ self.old.pace }
        ensures outgoing { self.new.outgoing ≡ self.old.outgoing }
        ensures left { self.new.left ≡ self.old.left }
    {
        let mut room = [0u8; ROOM_LEN];
        match self.incoming.read(&mut room)? {
            DeviceRead::Octets(n) => {
                send_all(
                    &mut self.sender,
                    &mut self.peer,
                    &mut self.counts,
                    self.pace.is_silent(),
                    &room[..n],
                );
                Ok(false)
            }
            DeviceRead::NoneNow => Ok(false),
            DeviceRead::Ended => Ok(true),
        }
    }

    // Receives all that waits, and plays what is due meanwhile.
    fn hear_all(&mut self) -> Result<(), DeviceFault>
        ensures same { HasSettings self.old.receiver self.new.receiver self.old.sender self.new.sender
            self.old.pace self.new.pace }
        ensures time { self.new.pace.counted ≡ self.old.pace.counted }
        ensures incoming { self.new.incoming ≡ self.old.incoming }
        ensures hears { IfOk result (λ _. HearsAll S.receives self.old.peer self.new.peer) }
        ensures grows { IfOk result (λ _. length (O.went self.old.outgoing ++ self.old.left.items)
            ≤ length (O.went self.new.outgoing ++ self.new.left.items)) }
        ensures all { IfOk result (λ _. self.old.left.items ≡ [] → self.new.left.items ≡ []) }
        ensures fault { IfErr result (λ _. RefusesOctets O.has_failed O.has_taken O.waits self.new.outgoing) }
    {
        for _datagram in 0..MOST_DATAGRAMS {
            if !self.hear() {
                return Ok(());
            }
            self.play_due()?;
        }
        Ok(())
    }

    // Notes that all that came was read, so a silence may begin; then none is to begin any more.
    fn listen(&mut self)
        requires { HasHeardAll S.receives self.old.peer }
        ensures same { HasSettings self.old.receiver self.new.receiver self.old.sender self.new.sender
            self.old.pace self.new.pace }
        ensures listened { HasListened self.new.pace self.old.pace.counted }
        ensures peer { self.new.peer ≡ self.old.peer }
        ensures incoming { self.new.incoming ≡ self.old.incoming }
        ensures outgoing { self.new.outgoing ≡ self.old.outgoing }
        ensures left { self.new.left ≡ self.old.left }
    {
        let now = self.pace.now();
        let begins = self.pace.listen(now);
        self.counts.listen(begins);
    }

    /// One turn at a time: receives what waits, a thousand datagrams at most, plays what is due, 8192 packets
    /// at most, and reads the trunk once and sends what came. Returns whether no octet will come from the
    /// trunk any more.
    pub fn turn(&mut self, now: u64) -> Result<bool, DeviceFault>
        ensures same { HasSettings self.old.receiver self.new.receiver self.old.sender self.new.sender
            self.old.pace self.new.pace }
        ensures ended { IfOk result (λ ended. ended ≡ true → I.has_ended self.new.incoming) }
        ensures hears { IfOk result (λ _. HearsAll S.receives self.old.peer self.new.peer) }
        ensures plays { IfOk result (λ _. PlaysDue self.new.receiver self.new.pace
            self.old.receiver.settings.size (O.went self.old.outgoing ++ self.old.left.items)
            (O.went self.new.outgoing ++ self.new.left.items)) }
        ensures listened { IfOk result (λ _. HasListened self.new.pace now) }
        ensures all { IfOk result (λ _. self.old.left.items ≡ [] → self.new.left.items ≡ []) }
        ensures fault { IfErr result (λ _. I.has_failed self.new.incoming
            ⊎ RefusesOctets O.has_failed O.has_taken O.waits self.new.outgoing) }
    {
        self.advance(now);
        self.hear_all()?;
        self.listen();
        self.play_due()?;
        self.take()
    }

    /// The time at which the next turn is due if nothing comes.
    pub fn plan(&mut self) -> u64
        ensures same { HasSettings self.old.receiver self.new.receiver self.old.sender self.new.sender
            self.old.pace self.new.pace }
        ensures incoming { self.new.incoming ≡ self.old.incoming }
        ensures time { (calls : List PlayoutCall) → HasPlayed self.old.receiver calls → result
            ≡ next_time self.old.pace self.old.pace.counted (reach_after self.old.receiver.settings calls) }
    {
        let now = self.pace.now();
        let reach = self.receiver.reach();
        self.pace.plan(now, reach)
    }
}
