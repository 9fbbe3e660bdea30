//! What a session records its events on (`Tape`), and how they are collected for one write.
ghost use Rattle.std.specs.Prelude.{◌≡◌, ◌+◌, ◌^◌, ◌<◌, ◌≤◌, ◌∷◌, ◌++◌, [], length, map, true, false, None};
ghost use Rattle.std.specs.Prelude.{Bool};
ghost use Rattle.gw_circuit.specs.Items.{Datagram};
ghost use Rattle.gw_switch.specs.Events.{Event};
ghost use Rattle.gw_records.specs.Records.{IsGood, named};
ghost use Rattle.gw_session.specs.Answers.{events_of};
ghost use Rattle.gw_session.specs.Running.{all_kinds};
ghost use Rattle.gw_session.specs.Tape.{TapeState, no_tape, tells_of, Recorded, HasEnded, Learns, keeps_at};
ghost use Rattle.gw_session.specs.Tape.{gone_to, is_lost_of};
ghost use Rattle.gw_session.specs.Tape.{WritesRecords, Batches, RecordsAll, taping, answers_at};

use crate::packet_ports::PacketPorts;
use crate::spelling::append;
use arrayvec::ArrayVec;
use g704_cas::CircuitNo;
use gw_records::{DATAGRAM, FRONT_LEN, Line, RecordHead, TRUNK};
use gw_switch::Gateway;

// The longest datagram that a record can hold.
const LONGEST: usize = 65_535;

/// The octets of records that are put on a tape together, 4,096 at most: a pipe takes this many whole or not
/// at all (pipe(7), PIPE_BUF).
pub type Batch = ArrayVec<u8, 4_096>;

/// What events are recorded on, as records of the same events.
pub trait Tape {
    /// What the tape tells of itself: whether it has ended, how many of its writes have failed, up to the
    /// greatest u64, and, where they are known, the octets that it took and the acts that it was told of.
    ghost tells: { Self → TapeState };

    /// Whether the session is not to go on, since this tape has ended.
    ghost is_lost: { Self → Bool };

    /// Records what a record of this head and body says. The tape may end at it; one that has ended does
    /// nothing.
    fn put(&mut self, head: RecordHead, body: &[u8])
        requires { IsGood all_kinds (named head body.now) }
        ensures recorded { Recorded (tells self.old) (tells self.new) (events_of (named head body.now)) }
        ensures acts { (tells self.new).acts ≡ (tells self.old).acts };

    /// Records what records say, whose octets these are. The tape may end at it; one that has ended does
    /// nothing.
    fn put_together(&mut self, octets: &[u8])
        ensures written { WritesRecords (tells self.old) (tells self.new) octets.now }
        ensures acts { (tells self.new).acts ≡ (tells self.old).acts };

    /// Ends the tape.
    fn end(&mut self)
        ensures { HasEnded (tells self.old) (tells self.new) };

    /// Whether the session is not to go on, since this tape has ended.
    fn is_lost(&self) -> bool
        ensures { result ≡ is_lost self.now };

    /// Learns the gateway, which stands behind all that was put, and is shown what packets and answers go to.
    /// It is called before each record.
    fn keep<O: PacketPorts<L>, L: Line>(&mut self, gateway: &Gateway, ports: &O, line: &L)
        ensures { Learns (tells self.old) (tells self.new)
            (keeps_at (tells self.old) gateway.now (gone_to (O.tells ports.now) (L.output line.now).sink) ∷ []) };

    /// Learns that what was put is answered next, and is shown what packets and answers go to.
    fn before_answer<O: PacketPorts<L>, L: Line>(&mut self, ports: &O, line: &L)
        ensures { Learns (tells self.old) (tells self.new)
            (answers_at (tells self.old) (gone_to (O.tells ports.now) (L.output line.now).sink) ∷ []) };
}

/// A tape that takes nothing.
#[derive(Clone, Copy, Debug, PartialEq, Eq)]
pub struct NoTape;

impl Tape for NoTape {
    ghost tells = { λ _. no_tape };

    ghost is_lost = { λ _. false };

    fn put(&mut self, _head: RecordHead, _body: &[u8]) {}

    fn put_together(&mut self, _octets: &[u8]) {}

    fn end(&mut self) {}

    #[inline(always)]
    fn is_lost(&self) -> bool {
        false
    }

    #[inline(always)]
    fn keep<O: PacketPorts<L>, L: Line>(&mut self, _gateway: &Gateway, _ports: &O, _line: &L) {}

    #[inline(always)]
    fn before_answer<O: PacketPorts<L>, L: Line>(&mut self, _ports: &O, _line: &L) {}
}

/// A tape, or none.
impl<T: Tape> Tape for Option<T> {
    ghost tells = { λ tape. tells_of T.tells tape };

    ghost is_lost = { λ tape. is_lost_of T.is_lost tape };

    fn put(&mut self, head: RecordHead, body: &[u8]) {
        if let Some(tape) = self {
            tape.put(head, body);
        }
    }

    fn put_together(&mut self, octets: &[u8]) {
        if let Some(tape) = self {
            tape.put_together(octets);
        }
    }

    fn end(&mut self) {
        if let Some(tape) = self {
            tape.end();
        }
    }

    fn is_lost(&self) -> bool {
        match self {
            Some(tape) => tape.is_lost(),
            None => false,
        }
    }

    fn keep<O: PacketPorts<L>, L: Line>(&mut self, gateway: &Gateway, ports: &O, line: &L) {
        if let Some(tape) = self {
            tape.keep::<O, L>(gateway, ports, line);
        }
    }

    fn before_answer<O: PacketPorts<L>, L: Line>(&mut self, ports: &O, line: &L) {
        if let Some(tape) = self {
            tape.before_answer::<O, L>(ports, line);
        }
    }
}

// Puts the batch on the tape, which empties it.
fn write_batch<T: Tape>(tape: &mut T, batch: &mut Batch)
    ensures written { WritesRecords (T.tells tape.old) (T.tells tape.new) batch.old.items }
    ensures acts { (T.tells tape.new).acts ≡ (T.tells tape.old).acts }
    ensures empty { batch.new.items ≡ [] }
{
    tape.put_together(batch.as_slice());
    batch.clear();
}

// Makes room for a record in the batch, which is recorded if there is none. Returns whether there is room.
fn make_room<T: Tape>(tape: &mut T, batch: &mut Batch, body: &[u8]) -> bool
    requires { length body.now < 2 ^ 16 }
    ensures batches { Batches (taping (T.tells tape.old) batch.old.items)
        (taping (T.tells tape.new) batch.new.items) [] }
    ensures room { result ≡ true → length batch.new.items + (4 + length body.now) ≤ 4096 }
    ensures empty { result ≡ false → batch.new.items ≡ [] }
    ensures together { length batch.old.items + (4 + length body.now) ≤ 4096
        → (result ≡ true) × (tape.new ≡ tape.old) × (batch.new ≡ batch.old) }
{
    let len = FRONT_LEN + body.len();
    if len > batch.remaining_capacity() {
        write_batch(tape, batch);
    }
    len <= batch.remaining_capacity()
}

// Puts octets of the trunk into the batch, if there are any.
fn batch_octets<T: Tape>(tape: &mut T, batch: &mut Batch, octets: &[u8])
    requires { length octets.now < 2 ^ 16 }
    ensures batches { Batches (taping (T.tells tape.old) batch.old.items)
        (taping (T.tells tape.new) batch.new.items) (map Event.Octet octets.now) }
    ensures together { length batch.old.items + (4 + length octets.now) ≤ 4096 → (tape.new ≡ tape.old)
        × (length batch.new.items ≤ length batch.old.items + (4 + length octets.now)) }
{
    if octets.is_empty() {
        return;
    }
    if make_room(tape, batch, octets) {
        append(batch, TRUNK, 0, octets);
    } else {
        tape.put(RecordHead::Trunk, octets);
    }
}

// Puts a datagram of a circuit into the batch. One that is too long for a record ends the tape.
fn batch_datagram<T: Tape>(tape: &mut T, batch: &mut Batch, circuit: CircuitNo, octets: &[u8])
    ensures batches { Batches (taping (T.tells tape.old) batch.old.items)
        (taping (T.tells tape.new) batch.new.items) (Event.Given circuit (Datagram octets.now) ∷ []) }
    ensures together { length batch.old.items + (4 + length octets.now) ≤ 4096 → tape.new ≡ tape.old }
{
    if octets.len() > LONGEST {
        write_batch(tape, batch);
        tape.end();
    } else if make_room(tape, batch, octets) {
        append(batch, DATAGRAM, circuit.get(), octets);
    } else {
        tape.put(RecordHead::Datagram(circuit), octets);
    }
}

/// Puts octets of the trunk into the batch, and a datagram that came behind them. The batch is recorded if it
/// has no room for them.
#[inline(never)]
pub fn batch_arrival<T: Tape>(
    tape: &mut T,
    batch: &mut Batch,
    fresh: &[u8],
    circuit: CircuitNo,
    octets: &[u8],
)
    requires { length fresh.now < 2 ^ 16 }
    ensures batches { Batches (taping (T.tells tape.old) batch.old.items)
        (taping (T.tells tape.new) batch.new.items)
        (map Event.Octet fresh.now ++ Event.Given circuit (Datagram octets.now) ∷ []) }
    ensures together { length batch.old.items + (8 + length fresh.now + length octets.now) ≤ 4096
        → tape.new ≡ tape.old }
{
    batch_octets(tape, batch, fresh);
    batch_datagram(tape, batch, circuit, octets);
}

/// Records the batch, and octets of the trunk behind it, if there are any. Nothing is left in the batch.
pub fn record_octets<T: Tape>(tape: &mut T, batch: &mut Batch, octets: &[u8])
    requires { length octets.now < 2 ^ 16 }
    ensures recorded { RecordsAll (taping (T.tells tape.old) batch.old.items) (T.tells tape.new)
        (map Event.Octet octets.now) }
    ensures empty { batch.new.items ≡ [] }
{
    batch_octets(tape, batch, octets);
    write_batch(tape, batch);
}
