//! What comes of a trunk whose device has slots 1 to 31 alone (`SlotInput`).

ghost use Rattle.std.specs.Prelude.{◌≡◌, ◌⊎◌, ◌+◌, ◌*◌, ◌<◌, ◌≤◌, ◌++◌, ◌||◌, ◌&&◌, ℕ, List, [], ⊤};
ghost use Rattle.std.specs.Prelude.{length, min, take, is_some, not, false, MatchOption, IfOk};
ghost use Rattle.e1_g711.specs.declared.Law.{Law};
ghost use Rattle.gw_trunk.specs.Device.{IsTaken, octets_taken};
ghost use Rattle.trunk_filters.specs.Receiving.{HasMadeWhole, longest_read, most_read};
ghost use Rattle.trunk_filters.specs.Frames.{late_from};

use crate::receiving::{SlotReceiver, receiver_from};
use arrayvec::ArrayVec;
use e1_g711::Law;
use gw_records::{AtStart, Log, RecordHead};
use gw_trunk::{DeviceFault, DeviceRead, TrunkInput, drop_first};
use std::rt::Stderr;

// The octets of 64 frames: read at once at most.
const MOST_READ: usize = 1984;

/// A trunk whose device has slots 1 to 31 alone, if its receiver is used: what comes has slot 0 again, and
/// each octet in its slot. It prints when slot 16 is found and lost. Clients, waits and the end are the
/// trunk's own.
#[derive(Drop)]
pub struct SlotInput<I: TrunkInput> {
    incoming: I,
    slots: Option<SlotReceiver>,
    law: AtStart<Law>,
    // The place in a multiframe of the first octet.
    place: AtStart<u16>,
    // Octets that have come, for which there was no room.
    held: ArrayVec<u8, 2112>,
    // Whether the last read gave only such octets.
    only_held: bool,
    errors: Stderr,
    // What was printed last.
    told: Option<u8>,
    log: Log,
    ghost came: { ∥ MatchOption slots ((log.octets ≡ I.came incoming) × (held.items ≡ []))
        (λ s. HasMadeWhole s law.value place.value (I.came incoming) (log.octets ++ held.items)) ∥₁ },
    ghost said: { ∥ MatchOption slots ⊤ (λ s. told ≡ late_from place.value (I.came incoming)) ∥₁ },
    ghost off: { is_some slots ≡ false → only_held ≡ false },
    ghost few: { length held.items ≤ 1 },
}

impl<I: TrunkInput> SlotInput<I> {
    /// A trunk of this law of which nothing has come yet, and whose first octet is at this place in a
    /// multiframe. Its device has slots 1 to 31 alone if `is_on` holds.
    pub fn new(incoming: I, is_on: bool, law: Law, place: u16, errors: Stderr) -> SlotInput<I>
        requires came { I.came incoming ≡ [] }
        requires place { place < 512 }
        ensures incoming { result.incoming ≡ incoming }
        ensures slots { is_some result.slots ≡ is_on }
        ensures law { result.law.value ≡ law }
        ensures place { result.place.value ≡ place }
        ensures log { result.log.octets ≡ [] }
    {
        SlotInput {
            incoming,
            slots: receiver_from(is_on, law, place),
            law: AtStart::of(&law),
            place: AtStart::of(&place),
            held: ArrayVec::new(),
            only_held: false,
            errors,
            told: None,
            log: Log::new(),
        }
    }
}

// Notes the octets that a read took into a room.
fn log_read(log: &mut Log, read: &Result<DeviceRead, DeviceFault>, room: &[u8])
    ensures { log.new.octets ≡ log.old.octets ++ octets_taken read.now room.now }
{
    if let Ok(DeviceRead::Octets(n)) = read {
        log.append(room, *n);
    }
}

// Makes the trunk's octets of those that a read of the device took into a room, where nothing is held.
fn make(
    slots: &mut SlotReceiver,
    read: &Result<DeviceRead, DeviceFault>,
    room: &[u8],
    held: &mut ArrayVec<u8, 2112>,
)
    requires few { IfOk read.now (λ t. IsTaken t longest_read) }
    requires room { length room.now ≡ longest_read }
    requires none { held.old.items ≡ [] }
    ensures made { (law : Law) (place : ℕ) (taken made : List ℕ) → HasMadeWhole slots.old law place taken made
        → HasMadeWhole slots.new law place (taken ++ octets_taken read.now room.now)
        (made ++ held.new.items) }
    ensures some { IfOk read.now (λ t. IsTaken t (length held.new.items)) }
    ensures most { 31 * length held.new.items ≤ 32 * length (octets_taken read.now room.now) + 30 }
{
    if let Ok(DeviceRead::Octets(n)) = read {
        slots.octets(&room[..*n], held);
    }
}

// Prints that slot 16 is found, and by how many octets others are delayed, or that it is lost.
fn print_slots(errors: &Stderr, late: Option<u8>) {
    match late {
        Some(late) => {
            let _ = eprintln!(errors; "slots found {late}");
        }
        None => {
            let _ = eprintln!(errors; "slots lost");
        }
    }
}

// Prints what has become of slot 16, if that is something else than what was printed last.
fn tell(slots: &SlotReceiver, errors: &Stderr, told: &mut Option<u8>)
    ensures late { (law : Law) (place : ℕ) (taken made : List ℕ) → HasMadeWhole slots.now law place taken made
        → told.new ≡ late_from place taken }
{
    let late = slots.late();
    if late != *told {
        print_slots(errors, late);
        *told = late;
    }
}

// Gives what is held, as far as there is room.
fn give(held: &mut ArrayVec<u8, 2112>, room: &mut [u8], log: &mut Log) -> usize
    requires { 0 < length room.old }
    ensures count { result ≡ min (length held.old.items) (length room.new) }
    ensures len { length room.new ≡ length room.old }
    ensures log { log.new.octets ≡ log.old.octets ++ take result room.new }
    ensures left { (held.new.items ≡ []) ⊎ (result ≡ length room.new) }
    ensures all { log.new.octets ++ held.new.items ≡ log.old.octets ++ held.old.items }
{
    let n = held.len().min(room.len());
    room[..n].copy_from_slice(&held.as_slice()[..n]);
    drop_first(held, n);
    log.append(room, n);
    n
}

// How many octets of a device are read for a room: what comes of them fits, unless it is very small.
fn most_read(room: usize) -> usize
    ensures most { result ≡ most_read room }
    ensures blocks { (frames : ℕ) → frames ≤ 64 → 32 * frames ≤ room → 31 * frames ≤ result }
{
    (room / 32 * 31).max(1).min(MOST_READ)
}

impl<I: TrunkInput> TrunkInput for SlotInput<I> {
    ghost came = { λ d. d.log.octets };

    ghost asked = { λ d. I.asked d.incoming };

    ghost told = { λ d. I.told d.incoming };

    ghost has_ended = { λ d. I.has_ended d.incoming };

    ghost has_failed = { λ d. I.has_failed d.incoming };

    ghost waits = { λ d. I.waits d.incoming };

    ghost is_turn = { λ d. d.only_held || I.is_turn d.incoming };

    ghost is_empty = { λ d. not d.only_held && I.is_empty d.incoming };

    ghost clients_are_quiet = { λ d. d.only_held || I.clients_are_quiet d.incoming };

    ghost is_idle = { λ d. I.is_idle d.incoming };

    fn read(&mut self, room: &mut [u8]) -> Result<DeviceRead, DeviceFault> {
        let Some(slots) = &mut self.slots else {
            let read = self.incoming.read(room);
            log_read(&mut self.log, &read, room);
            return read;
        };
        self.only_held = !self.held.is_empty();
        if self.only_held {
            let n = give(&mut self.held, room, &mut self.log);
            return Ok(DeviceRead::Octets(n));
        }
        let mut octets = [0u8; MOST_READ];
        let read = self.incoming.read(&mut octets[..most_read(room.len())]);
        make(slots, &read, &octets, &mut self.held);
        tell(slots, &self.errors, &mut self.told);
        match read {
            Ok(DeviceRead::Octets(_)) => {
                let n = give(&mut self.held, room, &mut self.log);
                Ok(DeviceRead::Octets(n))
            }
            other => other,
        }
    }

    fn command(&mut self) -> Option<RecordHead> {
        if self.only_held {
            return None;
        }
        self.incoming.command()
    }

    fn answer(&mut self, octets: &[u8]) {
        self.incoming.answer(octets);
    }

    fn wait(&mut self) {
        self.incoming.wait();
    }
}
