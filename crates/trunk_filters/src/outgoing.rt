//! What is sent to a trunk, as a filter returns it (`FilteredOutput`).

ghost use Rattle.std.specs.Prelude.{◌≡◌, ◌<◌, ◌≤◌, ◌⊎◌, ◌++◌, ℕ, List, [], length, min, true, false};
ghost use Rattle.std.specs.Prelude.{IfOk, IfErr, IfSome, IfNone, OnErr};
ghost use Rattle.gw_trunk.specs.Device.{written_of};
ghost use Rattle.trunk_filters.specs.Outgoing.{WasOffered, WasOfferedOrNone, TookNone, HasGone};

use crate::pieces::PieceFilter;
use arrayvec::ArrayVec;
use gw_records::Log;
use gw_trunk::{DeviceFault, TrunkOutput, drop_first, give_held};

// The octets that are taken at once at most: those of a multiframe (ITU-T G.704, 5.1.3.2).
const MOST_TAKEN: usize = 512;

// Gives a device what is held for it, as far as it takes it without a wait, and returns whether that is all.
fn give_now<O: TrunkOutput>(
    outgoing: &mut O,
    held: &mut ArrayVec<u8, 512>,
) -> Result<bool, DeviceFault>
    ensures all { IfOk result (λ all. all ≡ true → held.new.items ≡ []) }
    ensures went { O.went outgoing.new ++ held.new.items ≡ O.went outgoing.old ++ held.old.items }
    ensures waits { O.waits outgoing.new ≡ O.waits outgoing.old }
    ensures slow { O.slow_waits outgoing.new ≡ O.slow_waits outgoing.old }
    ensures full { IfOk result (λ all. all ≡ false → O.is_full outgoing.new) }
    ensures given { 0 < length held.old.items → WasOffered (O.was_given outgoing.new) held.new.items }
    ensures none { held.old.items ≡ [] → held.new.items ≡ [] }
    ensures some { IfOk result (λ all. all ≡ false → 0 < length held.old.items) }
    ensures begun { OnErr result (0 < length held.old.items) }
    ensures err { OnErr result (TookNone O.has_failed O.has_taken outgoing.new) }
{
    for _turn in 0..held.len() {
        match outgoing.write(held.as_slice()) {
            Ok(Some(0)) => return Err(DeviceFault),
            Ok(Some(n)) => drop_first(held, n),
            Ok(None) => return Ok(false),
            Err(fault) => return Err(fault),
        }
        if held.is_empty() {
            return Ok(true);
        }
    }
    Ok(true)
}

/// A trunk to which go the octets that a filter returns for what is sent. Of that 512 octets at most are
/// taken at once, and none before the device has taken what the filter returned before. Waits are the
/// device's own.
#[derive(Drop)]
pub struct FilteredOutput<O: TrunkOutput, F: PieceFilter> {
    outgoing: O,
    filter: F,
    // What the filter returned, and the device has not taken.
    held: ArrayVec<u8, 512>,
    log: Log,
    ghost returned: { ∥ F.has_returned filter log.octets (O.went outgoing ++ held.items) ∥₁ },
}

impl<O: TrunkOutput, F: PieceFilter> FilteredOutput<O, F> {
    /// A trunk to which nothing went yet, and its filter.
    pub fn new(outgoing: O, filter: F) -> FilteredOutput<O, F>
        requires went { O.went outgoing ≡ [] }
        requires begins { F.has_returned filter [] [] }
        ensures outgoing { result.outgoing ≡ outgoing }
        ensures filter { result.filter ≡ filter }
        ensures log { result.log.octets ≡ [] }
    {
        FilteredOutput {
            outgoing,
            filter,
            held: ArrayVec::new(),
            log: Log::new(),
        }
    }

    // Gives the device octets as they are, where nothing is held and the filter is off.
    fn pass_on(&mut self, octets: &[u8]) -> Result<Option<usize>, DeviceFault>
        requires none { self.old.held.items ≡ [] }
        requires off { (taken returned octets : List ℕ) → F.has_returned self.old.filter taken returned
            → F.has_returned self.old.filter (taken ++ octets) (returned ++ octets) }
        ensures bound { IfOk result (λ n. IfSome n (λ m. m ≤ length octets.now)) }
        ensures went { self.new.log.octets ≡ self.old.log.octets ++ written_of result octets.now }
        ensures none { self.new.held.items ≡ [] }
        ensures waits { O.waits self.new.outgoing ≡ O.waits self.old.outgoing }
        ensures slow { O.slow_waits self.new.outgoing ≡ O.slow_waits self.old.outgoing }
        ensures taken { IfOk result (λ n. IfSome n (O.has_taken self.new.outgoing)) }
        ensures full { IfOk result (λ n. IfNone n (O.is_full self.new.outgoing)) }
        ensures given { O.was_given self.new.outgoing octets.now }
        ensures err { OnErr result (O.has_failed self.new.outgoing) }
    {
        match self.outgoing.write(octets) {
            Ok(Some(n)) => {
                self.log.append(octets, n);
                Ok(Some(n))
            }
            Ok(None) => Ok(None),
            Err(fault) => Err(fault),
        }
    }

    /// Gives the device what is still held for it, and waits for it a while. Returns whether it took all;
    /// false if it was slow.
    ///
    /// # Errors
    ///
    /// [`DeviceFault`] if its last write failed, found no room or took nothing.
    pub fn finish(&mut self) -> Result<bool, DeviceFault>
        ensures sent { self.new.log.octets ≡ self.old.log.octets }
        ensures filter { self.new.filter ≡ self.old.filter }
        ensures all { IfOk result (λ all. all ≡ true → self.new.held.items ≡ []) }
        ensures slow { IfOk result (λ all. all ≡ false
            → O.slow_waits self.old.outgoing < O.slow_waits self.new.outgoing) }
        ensures waits { O.slow_waits self.old.outgoing ≤ O.slow_waits self.new.outgoing }
        ensures err { OnErr result ((O.has_failed self.new.outgoing ⊎ O.is_full self.new.outgoing)
            ⊎ O.has_taken self.new.outgoing 0) }
    {
        give_held(&mut self.outgoing, &mut self.held)
    }
}

impl<O: TrunkOutput + Drop, F: PieceFilter + Drop> FilteredOutput<O, F> {
    /// What is sent.
    pub fn into_outgoing(self) -> O
        ensures { result ≡ self.outgoing }
    {
        let FilteredOutput { outgoing, .. } = self;
        outgoing
    }
}

impl<O: TrunkOutput, F: PieceFilter> TrunkOutput for FilteredOutput<O, F> {
    ghost went = { λ d. d.log.octets };

    ghost is_full = { λ d. O.is_full d.outgoing };

    ghost has_failed = { λ d. TookNone O.has_failed O.has_taken d.outgoing };

    ghost has_taken = { λ d _. HasGone d.held.items
        (O.is_full d.outgoing ⊎ TookNone O.has_failed O.has_taken d.outgoing) };

    ghost was_given = { λ d octets. 0 < length octets
        → WasOfferedOrNone (F.may_return_none d.filter) (O.was_given d.outgoing) d.held.items };

    ghost waits = { λ d. O.waits d.outgoing };

    ghost slow_waits = { λ d. O.slow_waits d.outgoing };

    fn write(&mut self, octets: &[u8]) -> Result<Option<usize>, DeviceFault>
        ensures bound { IfOk result (λ n. IfSome n (λ m. m ≤ length octets.now)) }
        ensures went { self.new.log.octets ≡ self.old.log.octets ++ written_of result octets.now }
        ensures waits { O.waits self.new.outgoing ≡ O.waits self.old.outgoing }
        ensures slow { O.slow_waits self.new.outgoing ≡ O.slow_waits self.old.outgoing }
        ensures most { IfOk result (λ n. IfSome n (λ m. (m ≡ min 512 (length octets.now))
            ⊎ (O.was_given self.new.outgoing octets.now × O.has_taken self.new.outgoing m))) }
        ensures taken { IfOk result (λ n. IfSome n (λ _. HasGone self.new.held.items
            (O.is_full self.new.outgoing ⊎ TookNone O.has_failed O.has_taken self.new.outgoing))) }
        ensures full { IfOk result (λ n. IfNone n (O.is_full self.new.outgoing)) }
        ensures given { 0 < length octets.now
            → WasOfferedOrNone (F.may_return_none self.new.filter) (O.was_given self.new.outgoing)
            self.new.held.items }
        ensures err { IfErr result (λ _. TookNone O.has_failed O.has_taken self.new.outgoing) }
    {
        if !give_now(&mut self.outgoing, &mut self.held)? {
            return Ok(None);
        }
        if self.filter.is_off() {
            return self.pass_on(octets);
        }
        let n = octets.len().min(MOST_TAKEN);
        self.filter.pass(&octets[..n], &mut self.held);
        self.log.append(octets, n);
        let _ = give_now(&mut self.outgoing, &mut self.held);
        Ok(Some(n))
    }

    fn wait(&mut self) {
        self.outgoing.wait();
    }

    fn wait_a_while(&mut self) -> bool {
        self.outgoing.wait_a_while()
    }
}
