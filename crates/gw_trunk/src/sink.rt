//! What of the answers of a session goes to the trunk (`TrunkRecordSink`).

ghost use Rattle.std.specs.Prelude.{◌≡◌, ◌≤◌, ◌<◌, ◌^◌, ◌++◌, ◌⊎◌, [], length, take, drop};
ghost use Rattle.std.specs.Prelude.{ℕ, IfOk, Err, OnErr, OnOk, true, false};
ghost use Rattle.gw_records.specs.Records.{trunk_record};
ghost use Rattle.gw_records.specs.Streams.{CanCount, Writes};
ghost use Rattle.gw_trunk.specs.Device.{FailsOrStands, WasGivenAll};
ghost use Rattle.gw_trunk.specs.Bodies.{HasPassed, IsCodeRecord, others, told_by};

use crate::device::TrunkOutput;
use gw_records::{Log, RunFault, SinkFault};

/// Takes the answers of a session, and passes the octets that answer T records to the trunk. Behind an answer
/// that was cut nothing goes.
#[derive(Drop)]
pub struct TrunkRecordSink<O: TrunkOutput> {
    outgoing: O,
    failed: u64,
    // Whether an answer was cut.
    cut: bool,
    log: Log,
    ghost passed: { HasPassed cut log.octets (O.went outgoing) },
}

// Puts octets out, and returns how many went: the first ones. It waits if none can go now.
fn put_out<O: TrunkOutput>(outgoing: &mut O, octets: &[u8]) -> Result<usize, SinkFault>
    ensures bound { IfOk result (λ n. n ≤ length octets.now) }
    ensures went { IfOk result (λ n. O.went outgoing.new ≡ O.went outgoing.old ++ take n octets.now) }
    ensures err { OnErr result (O.went outgoing.new ≡ O.went outgoing.old) }
    ensures fails { OnErr result (FailsOrStands O.has_failed O.waits outgoing.new) }
    ensures given { IfOk result (λ _. O.was_given outgoing.new octets.now) }
{
    for _turn in 0..u64::MAX {
        match outgoing.write(octets) {
            Ok(Some(n)) => return Ok(n),
            Ok(None) => outgoing.wait(),
            Err(_) => return Err(SinkFault),
        }
    }
    Err(SinkFault)
}

// Puts all octets out, and returns how many went: all, unless the device fails or takes none of the others.
fn put_all<O: TrunkOutput>(outgoing: &mut O, octets: &[u8]) -> usize
    ensures bound { result ≤ length octets.now }
    ensures went { O.went outgoing.new ≡ O.went outgoing.old ++ take result octets.now }
    ensures stops { result < length octets.now → FailsOrStands O.has_failed O.waits outgoing.new
        ⊎ O.was_given outgoing.new (drop result octets.now) }
    ensures given { 0 < result → WasGivenAll O.was_given octets.now }
{
    let mut done = 0;
    'putting: while done < octets.len() {
        match put_out(outgoing, &octets[done..]) {
            Ok(n) if n > 0 => done += n,
            _ => return done,
        }
    }
    done
}

// Notes an answer that was cut, and counts it.
fn note_cut(cut: &mut bool, failed: &mut u64) -> Result<(), RunFault>
    requires { CanCount failed.old }
    ensures fault { result ≡ Err RunFault.Write }
    ensures cut { cut.new ≡ true }
    ensures counts { failed.old < failed.new }
{
    *cut = true;
    *failed = failed.saturating_add(1);
    Err(RunFault::Write)
}

impl<O: TrunkOutput> TrunkRecordSink<O> {
    /// What takes the answers from now on, with no failure yet.
    pub fn new(outgoing: O) -> TrunkRecordSink<O>
        requires went { O.went outgoing ≡ [] }
        ensures outgoing { result.outgoing ≡ outgoing }
        ensures failed { result.failed ≡ 0 }
        ensures cut { result.cut ≡ false }
        ensures log { result.log.octets ≡ [] }
    {
        TrunkRecordSink {
            outgoing,
            failed: 0,
            cut: false,
            log: Log::new(),
        }
    }

    /// Has the trunk take the octets that answer a T record.
    pub fn put_octets(&mut self, octets: &[u8]) -> Result<(), RunFault>
        requires short { length octets.now < 2 ^ 16 }
        requires writes { CanCount self.old.failed }
        ensures writes { Writes (told_by self.old.failed self.old.log.octets)
            (told_by self.new.failed self.new.log.octets) (trunk_record octets.now) result }
        ensures fails { OnErr result ((self.old.cut ≡ true)
            ⊎ FailsOrStands O.has_failed O.waits self.new.outgoing ⊎ ((n : ℕ) × (n < length octets.now)
            × O.was_given self.new.outgoing (drop n octets.now))) }
        ensures given { OnOk result (0 < length octets.now → WasGivenAll O.was_given octets.now) }
        ensures told { others self.new.log.octets ≡ others self.old.log.octets }
    {
        if self.cut {
            return note_cut(&mut self.cut, &mut self.failed);
        }
        let n = put_all(&mut self.outgoing, octets);
        self.log.append_trunk(octets, n);
        if n < octets.len() {
            return note_cut(&mut self.cut, &mut self.failed);
        }
        Ok(())
    }

    /// Takes an R record, none of which goes to the trunk.
    pub fn put_code(&mut self, octets: &[u8; 6]) -> Result<(), RunFault>
        requires code { IsCodeRecord octets.now }
        requires writes { CanCount self.old.failed }
        ensures writes { Writes (told_by self.old.failed self.old.log.octets)
            (told_by self.new.failed self.new.log.octets) octets.now result }
        ensures log { OnOk result (self.new.log.octets ≡ self.old.log.octets ++ octets.now) }
        ensures whole { OnOk result (self.old.cut ≡ false) }
        ensures cut { OnErr result ((self.old.cut ≡ true) × (self.new.log ≡ self.old.log)) }
    {
        if self.cut {
            return note_cut(&mut self.cut, &mut self.failed);
        }
        self.log.append(octets, 6);
        Ok(())
    }
}

impl<O: TrunkOutput> TrunkRecordSink<O> {
    /// The device that the trunk's octets go to.
    pub fn into_outgoing(self) -> O
        ensures { result ≡ self.outgoing }
    {
        let TrunkRecordSink { outgoing, .. } = self;
        outgoing
    }
}
