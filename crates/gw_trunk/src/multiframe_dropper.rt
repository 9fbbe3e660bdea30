//! When octets for a slow device are discarded: whole multiframes, so that the far end keeps alignment.

ghost use Rattle.std.specs.Prelude.{◌≡◌, ◌<◌, ◌≤◌, ◌+◌, ◌-◌, ◌++◌, ◌⊎◌, ℕ, [], true, false, length, take};
ghost use Rattle.std.specs.Prelude.{min, IfOk, IfSome, IfNone, OnErr};
ghost use Rattle.gw_trunk.specs.Device.{written_of};
ghost use Rattle.gw_trunk.specs.Multiframes.{IsThinned, IsWithin, HasRoom, Steps, GoesInTime};
ghost use Rattle.gw_trunk.specs.Multiframes.{position_after, position_discarding};

use crate::device::{DeviceFault, TrunkOutput};
use crate::held::drop_first;
use arrayvec::ArrayVec;
use gw_records::Log;
use std::io::Write;

// The octets of a multiframe (ITU-T G.704, 5.1.3.2).
const MULTIFRAME_LEN: usize = 512;

// The line that reports the first discarded multiframe.
const SLOW: &[u8] = b"output slow: discarding whole multiframes\n";

/// Octets that wait until a device takes them, of one multiframe.
type Held = ArrayVec<u8, 512>;

/// Where the octets of a trunk stand in their multiframe.
#[derive(Clone, Copy, Debug, PartialEq, Eq)]
struct MultiframePosition {
    /// The place of the next octet, 0 to 511.
    place: usize,
    /// Whether this multiframe is discarded.
    discards: bool,
    /// How many were discarded so far, including this one, up to the greatest u64.
    discarded: u64,
}

// The position in the multiframe after this many octets of it.
fn position_after(position: MultiframePosition, n: usize) -> MultiframePosition
    requires { position.place + n ≤ 512 }
    ensures { result ≡ position_after position n }
{
    if position.place + n == MULTIFRAME_LEN {
        return MultiframePosition {
            place: 0,
            discards: false,
            discarded: position.discarded,
        };
    }
    MultiframePosition {
        place: position.place + n,
        discards: position.discards,
        discarded: position.discarded,
    }
}

// The position in the multiframe if it is discarded.
fn position_discarding(position: MultiframePosition) -> MultiframePosition
    ensures { result ≡ position_discarding position }
{
    MultiframePosition {
        place: position.place,
        discards: true,
        discarded: position.discarded.saturating_add(1),
    }
}

// Gives octets to a device, and returns how many it took; None if it was slow to take any.
fn give<O: TrunkOutput>(outgoing: &mut O, octets: &[u8]) -> Result<Option<usize>, DeviceFault>
    ensures bound { IfOk result (λ n. IfSome n (λ m. m ≤ length octets.now)) }
    ensures went { O.went outgoing.new ≡ O.went outgoing.old ++ written_of result octets.now }
    ensures slow { IfOk result (λ n. IfNone n (O.slow_waits outgoing.old < O.slow_waits outgoing.new)) }
    ensures waits { O.slow_waits outgoing.old ≤ O.slow_waits outgoing.new }
    ensures taken { IfOk result (λ n. IfSome n (O.has_taken outgoing.new)) }
    ensures given { IfOk result (λ n. IfSome n (λ _. O.was_given outgoing.new octets.now)) }
    ensures err { OnErr result (O.has_failed outgoing.new ⊎ O.is_full outgoing.new) }
{
    for _turn in 0..u64::MAX {
        match outgoing.write(octets) {
            Ok(Some(n)) => return Ok(Some(n)),
            Ok(None) => {
                if !outgoing.wait_a_while() {
                    return Ok(None);
                }
            }
            Err(fault) => return Err(fault),
        }
    }
    match outgoing.write(octets) {
        Ok(Some(n)) => Ok(Some(n)),
        _ => Err(DeviceFault),
    }
}

/// Gives a device what is held for it, and returns whether it took all; false if it was slow.
pub fn give_held<O: TrunkOutput>(
    outgoing: &mut O,
    held: &mut ArrayVec<u8, 512>,
) -> Result<bool, DeviceFault>
    ensures all { IfOk result (λ all. all ≡ true → held.new.items ≡ []) }
    ensures went { O.went outgoing.new ++ held.new.items ≡ O.went outgoing.old ++ held.old.items }
    ensures shorter { length held.new.items ≤ length held.old.items }
    ensures slow { IfOk result (λ all. all ≡ false → O.slow_waits outgoing.old < O.slow_waits outgoing.new) }
    ensures waits { O.slow_waits outgoing.old ≤ O.slow_waits outgoing.new }
    ensures err { OnErr result ((O.has_failed outgoing.new ⊎ O.is_full outgoing.new)
        ⊎ O.has_taken outgoing.new 0) }
{
    let turns = held.len() + 1;
    for _turn in 0..turns {
        if held.is_empty() {
            return Ok(true);
        }
        match give(outgoing, held.as_slice()) {
            Ok(Some(0)) => return Err(DeviceFault),
            Ok(Some(n)) => drop_first(held, n),
            Ok(None) => return Ok(false),
            Err(fault) => return Err(fault),
        }
    }
    Err(DeviceFault)
}

// Gives a device what is held for it and then octets, and returns how many of these it took; None if it was
// slow.
fn give_behind<O: TrunkOutput>(
    outgoing: &mut O,
    held: &mut Held,
    octets: &[u8],
) -> Result<Option<usize>, DeviceFault>
    ensures bound { IfOk result (λ n. IfSome n (λ m. m ≤ length octets.now)) }
    ensures went { O.went outgoing.new ++ held.new.items
        ≡ (O.went outgoing.old ++ held.old.items) ++ written_of result octets.now }
    ensures shorter { length held.new.items ≤ length held.old.items }
    ensures all { IfOk result (λ n. IfSome n (λ _. held.new.items ≡ [])) }
    ensures slow { IfOk result (λ n. IfNone n (O.slow_waits outgoing.old < O.slow_waits outgoing.new)) }
    ensures waits { O.slow_waits outgoing.old ≤ O.slow_waits outgoing.new }
    ensures given { IfOk result (λ n. IfSome n (λ _. O.was_given outgoing.new octets.now)) }
{
    if give_held(outgoing, held)? {
        return give(outgoing, octets);
    }
    Ok(None)
}

// Takes all of these octets of the current multiframe while the device is slow. They are held if the
// multiframe has begun to go; otherwise it is discarded.
fn take_slow(held: &mut Held, position: &mut MultiframePosition, octets: &[u8])
    requires fits { position.old.place + length octets.now ≤ 512 }
    requires below { position.old.place < 512 }
    requires goes { position.old.discards ≡ false }
    requires room { HasRoom held.old.items position.old }
    ensures steps { (waits waits' : ℕ) → waits < waits'
        → Steps position.old position.new held.old.items held.new.items octets.now waits waits' }
    ensures room { HasRoom held.new.items position.new }
    ensures below { position.new.place < 512 }
{
    if position.place > 0 {
        let _ = held.try_extend_from_slice(octets);
        *position = position_after(*position, octets.len());
    } else {
        *position = position_after(position_discarding(*position), octets.len());
    }
}

// Takes octets of the current multiframe, and returns how many.
fn pass<O: TrunkOutput>(
    outgoing: &mut O,
    held: &mut Held,
    position: &mut MultiframePosition,
    octets: &[u8],
) -> Result<usize, DeviceFault>
    requires fits { position.old.place + length octets.now ≤ 512 }
    requires within { IsWithin (O.slow_waits outgoing.old) held.old.items position.old }
    ensures bound { IfOk result (λ n. n ≤ length octets.now) }
    ensures steps { IfOk result (λ n. Steps position.old position.new (O.went outgoing.old ++ held.old.items)
        (O.went outgoing.new ++ held.new.items) (take n octets.now)
        (O.slow_waits outgoing.old) (O.slow_waits outgoing.new)) }
    ensures err { OnErr result ((position.new ≡ position.old)
        × (O.went outgoing.new ++ held.new.items ≡ O.went outgoing.old ++ held.old.items)) }
    ensures within { IsWithin (O.slow_waits outgoing.new) held.new.items position.new }
    ensures waits { O.slow_waits outgoing.old ≤ O.slow_waits outgoing.new }
    ensures given { IfOk result (λ _. position.old.discards ≡ false
        → (O.slow_waits outgoing.old < O.slow_waits outgoing.new) ⊎ O.was_given outgoing.new octets.now) }
{
    if position.discards {
        *position = position_after(*position, octets.len());
        return Ok(octets.len());
    }
    if let Some(n) = give_behind(outgoing, held, octets)? {
        *position = position_after(*position, n);
        return Ok(n);
    }
    take_slow(held, position, octets);
    Ok(octets.len())
}

// Reports that the device is slow.
fn tell_slow<E: Write>(notes: &mut E) {
    let _ = notes.write(SLOW);
}

/// A device that octets go to in time. If it takes none within the time that it is waited for, whole
/// multiframes are discarded until it takes some again, counted from the first octet. The rest of a
/// multiframe that has begun to go is held for it. The first discarded multiframe is reported once.
#[derive(Drop)]
pub struct MultiframeDropper<O: TrunkOutput, E> {
    outgoing: O,
    // Where the first discarded multiframe is reported.
    notes: E,
    held: Held,
    position: MultiframePosition,
    log: Log,
    // An octet for each wait.
    waits: Log,
    ghost thinned: { ∥ IsThinned position log.octets (O.went outgoing ++ held.items)
        (O.slow_waits outgoing) ∥₁ },
    ghost within: { IsWithin (O.slow_waits outgoing) held.items position },
}

impl<O: TrunkOutput, E: Write> MultiframeDropper<O, E> {
    /// A device to which no octet went yet, and where it is reported that it is slow.
    pub fn new(outgoing: O, notes: E) -> MultiframeDropper<O, E>
        requires { O.went outgoing ≡ [] }
        ensures { result.log.octets ≡ [] }
    {
        MultiframeDropper {
            outgoing,
            notes,
            held: ArrayVec::new(),
            position: MultiframePosition {
                place: 0,
                discards: false,
                discarded: 0,
            },
            log: Log::new(),
            waits: Log::new(),
        }
    }

    /// The number of discarded multiframes, up to the greatest u64.
    pub fn discarded(&self) -> u64
        ensures { result ≡ self.now.position.discarded }
    {
        self.position.discarded
    }

    /// Gives the device what is still held for it, and waits for it as before. What was sent goes to it in
    /// time. Something is held then only if the device was slow now, or its last write failed, found no room
    /// or took nothing.
    pub fn finish(&mut self)
        ensures sent { self.new.log.octets ≡ self.old.log.octets }
        ensures goes { ∥ GoesInTime self.new.log.octets (O.went self.new.outgoing) self.new.position.discarded
            (O.slow_waits self.new.outgoing) ∥₁ }
        ensures given { (self.new.held.items ≡ [])
            ⊎ ((O.slow_waits self.old.outgoing < O.slow_waits self.new.outgoing)
            ⊎ ((O.has_failed self.new.outgoing ⊎ O.is_full self.new.outgoing)
            ⊎ O.has_taken self.new.outgoing 0)) }
    {
        let _ = give_held(&mut self.outgoing, &mut self.held);
    }
}

impl<O: TrunkOutput, E: Write + Drop> MultiframeDropper<O, E> {
    /// The device that the octets go to.
    pub fn into_outgoing(self) -> O
        ensures { result ≡ self.outgoing }
    {
        let MultiframeDropper { outgoing, .. } = self;
        outgoing
    }
}

impl<O: TrunkOutput, E: Write> TrunkOutput for MultiframeDropper<O, E> {
    ghost went = { λ d. d.log.octets };

    ghost waits = { λ d. length d.waits.octets };

    fn write(&mut self, octets: &[u8]) -> Result<Option<usize>, DeviceFault>
        ensures bound { IfOk result (λ n. IfSome n (λ m. m ≤ length octets.now)) }
        ensures went { self.new.log.octets ≡ self.old.log.octets ++ written_of result octets.now }
        ensures waits { length self.new.waits.octets ≡ length self.old.waits.octets }
        ensures given { IfOk result (λ _. self.old.position.discards ≡ false
            → (O.slow_waits self.old.outgoing < O.slow_waits self.new.outgoing)
            ⊎ O.was_given self.new.outgoing
            (take (min (length octets.now) (512 - self.old.position.place)) octets.now)) }
    {
        let before = self.position.discarded;
        let most = octets.len().min(MULTIFRAME_LEN - self.position.place);
        let n = match pass(
            &mut self.outgoing,
            &mut self.held,
            &mut self.position,
            &octets[..most],
        ) {
            Ok(n) => n,
            Err(fault) => return Err(fault),
        };
        self.log.append(octets, n);
        if before == 0 && self.position.discarded > 0 {
            tell_slow(&mut self.notes);
        }
        Ok(Some(n))
    }

    fn wait(&mut self) {
        self.waits.append(&[0], 1);
    }

    fn wait_a_while(&mut self) -> bool {
        true
    }
}
