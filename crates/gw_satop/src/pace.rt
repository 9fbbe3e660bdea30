//! When a packet is due, a silence begins or a new stream is recognised (`PlayClock`).

ghost use Rattle.std.specs.Prelude.{◌≡◌, ◌≤◌, false};
ghost use Rattle.gw_satop.specs.Pace.{after_listening, after_packet, after_plan, after_play, after_refusal};
ghost use Rattle.gw_satop.specs.Pace.{at_time, new_pace};
ghost use Rattle.gw_satop.specs.Pace.{beginning, by_clock, falls_silent, first_number, is_due, is_in_step};
ghost use Rattle.gw_satop.specs.Pace.{is_long, is_stream, new_run, next_time, run_left, run_with};

use crate::timing::Timing;
use satop_playout::ArrivalFault;

// Silence begins so long after the last packet.
const SILENCE_US: u64 = 100_000;

// If the process comes later than planned by more than this, it stood still; and so long after it what came
// meanwhile may still be on its way.
const WOKEN_US: u64 = 20_000;

// The most that is made up for after a stall.
const MOST_BEHIND_US: u64 = 1_000_000;

// The credit of that in thousandths of a microsecond, and what it grows by in a microsecond.
const MOST_CREDIT: u64 = 1_000_000_000;

const CREDIT_PER_US: u64 = 1_001;

// The packets and the time of a run that is a stream.
const RUN_PACKETS: u32 = 8;

const RUN_US: u64 = 50_000;

// Consecutive packets outside the window.
#[derive(Clone, Copy, Debug, PartialEq, Eq)]
struct Run {
    // the time of the first one
    since: u64,
    // the number of the last one
    last: u16,
    packets: u32,
}

// A run of one packet outside the window.
fn new_run(sequence: u16, now: u64) -> Run
    ensures { result ≡ new_run sequence now }
{
    Run {
        since: now,
        last: sequence,
        packets: 1,
    }
}

// The run of packets outside the window with one more.
fn run_with(run: Option<Run>, sequence: u16, now: u64) -> Run
    ensures { result ≡ run_with run sequence now }
{
    match run {
        Some(run) if run.last.wrapping_add(1) == sequence => Run {
            since: run.since,
            last: sequence,
            packets: run.packets.saturating_add(1),
        },
        _ => new_run(sequence, now),
    }
}

// Whether a run has eight packets and 50 ms.
fn is_long(run: Run, now: u64) -> bool
    ensures { result ≡ is_long run now }
{
    run.packets >= RUN_PACKETS && now.saturating_sub(run.since) >= RUN_US
}

// Whether a run came at most at 1.5 times the trunk's rate.
fn is_in_step(packet: u64, run: Run, now: u64) -> bool
    requires { packet ≤ 5000 }
    ensures { result ≡ is_in_step packet run now }
{
    2 * (u64::from(run.packets) * packet) / 3 <= now.saturating_sub(run.since)
}

/// The time of an emulated circuit: when packets are due, and when a stream begins. All times are in
/// microseconds of one clock, and come with the calls.
#[derive(Clone, Copy, Debug, PartialEq, Eq)]
pub struct PlayClock {
    timing: Timing,
    // the time of the last packet of the stream
    heard: u64,
    // the time up to which this machine's clock has played
    reached: u64,
    // the time before which no silence begins
    patient: u64,
    // when the next call was planned
    planned: u64,
    // what may be played, in thousandths of a microsecond, and the time up to which that is counted
    credit: u64,
    counted: u64,
    // no packet comes, and this machine's clock plays
    silent: bool,
    // all that had come was read since the time was moved on
    listened: bool,
    run: Option<Run>,
}

impl PlayClock {
    /// The playing of packets by this timing, from now on.
    pub fn new(timing: Timing, now: u64) -> PlayClock
        ensures { result ≡ new_pace timing now }
    {
        PlayClock {
            timing,
            heard: now,
            reached: now,
            patient: now,
            planned: now,
            credit: MOST_CREDIT,
            counted: now,
            silent: false,
            listened: false,
            run: None,
        }
    }

    /// The time of this turn.
    pub fn now(&self) -> u64
        ensures { result ≡ self.now.counted }
    {
        self.counted
    }

    /// Whether no packet comes, so that this machine's clock plays.
    pub fn is_silent(&self) -> bool
        ensures { result ≡ self.now.silent }
    {
        self.silent
    }

    /// Notes a packet of the stream, which ends a silence.
    pub fn accept(&mut self, now: u64)
        ensures stands { self.new ≡ after_packet self.old now }
        ensures timing { self.new.timing ≡ self.old.timing }
        ensures time { self.new.counted ≡ self.old.counted }
    {
        self.heard = now;
        self.silent = false;
        self.run = None;
        if !self.timing.own_clock {
            self.reached = now;
        }
    }

    // The number at which a stream begins with this packet.
    fn first_number(&self, sequence: u16) -> u16
        ensures { result ≡ first_number self.now.timing sequence }
    {
        if self.timing.own_clock {
            sequence.wrapping_sub(self.timing.jitter)
        } else {
            sequence
        }
    }

    // Notes a packet outside the window. Returns whether a new stream began.
    fn joins(&mut self, sequence: u16, now: u64) -> bool
        ensures joins { result ≡ is_stream self.old.timing.packet (run_with self.old.run sequence now) now }
        ensures stays { self.new ≡ record self.old {
          run = run_left self.old.timing.packet (run_with self.old.run sequence now) now;
        } }
        ensures timing { self.new.timing ≡ self.old.timing }
        ensures time { self.new.counted ≡ self.old.counted }
    {
        let run = run_with(self.run, sequence, now);
        if !is_long(run, now) {
            self.run = Some(run);
            return false;
        }
        if is_in_step(self.timing.packet, run, now) {
            self.run = None;
            return true;
        }
        self.run = Some(new_run(run.last, now));
        false
    }

    /// Notes that a packet was refused. Returns the number at which a stream begins with it, if one does.
    pub fn refuse(&mut self, fault: ArrivalFault, sequence: u16, now: u64) -> Option<u16>
        ensures begins { result ≡ beginning self.old fault sequence now }
        ensures stands { self.new ≡ after_refusal self.old fault sequence now }
        ensures timing { self.new.timing ≡ self.old.timing }
        ensures time { self.new.counted ≡ self.old.counted }
    {
        match fault {
            ArrivalFault::NotBegun => Some(self.first_number(sequence)),
            ArrivalFault::Late | ArrivalFault::TooFar => {
                if self.joins(sequence, now) {
                    Some(self.first_number(sequence))
                } else {
                    None
                }
            }
            ArrivalFault::OtherSize | ArrivalFault::Repeat => None,
        }
    }

    // Whether this machine's clock says when packets are played.
    fn by_clock(&self) -> bool
        ensures { result ≡ by_clock self.now }
    {
        self.silent || self.timing.own_clock
    }

    /// Whether a packet is due if this many are there from the next one to the last.
    pub fn is_due(&self, now: u64, reach: u16) -> bool
        ensures { result ≡ is_due self.now now reach }
    {
        let waits = reach > self.timing.jitter;
        if self.by_clock() {
            return now.saturating_sub(self.reached) >= self.timing.packet
                && (self.listened || waits);
        }
        waits && 1000 * self.timing.packet <= self.credit
    }

    /// Notes that a packet was played.
    pub fn play(&mut self)
        ensures stands { self.new ≡ after_play self.old }
        ensures listened { self.new.listened ≡ self.old.listened }
        ensures silence { falls_silent self.new self.new.counted ≡ falls_silent self.old self.old.counted }
        ensures timing { self.new.timing ≡ self.old.timing }
        ensures time { self.new.counted ≡ self.old.counted }
    {
        if self.by_clock() {
            self.reached = self.reached.saturating_add(self.timing.packet);
        } else {
            self.credit = self.credit.saturating_sub(1000 * self.timing.packet);
        }
    }

    /// Moves the time on to now.
    pub fn advance(&mut self, now: u64)
        ensures stands { self.new ≡ at_time self.old now }
        ensures timing { self.new.timing ≡ self.old.timing }
        ensures time { self.new.counted ≡ now }
    {
        let passed = now.saturating_sub(self.counted).min(MOST_BEHIND_US);
        self.credit = self
            .credit
            .saturating_add(CREDIT_PER_US * passed)
            .min(MOST_CREDIT);
        self.counted = now;
        self.listened = false;
        self.reached = self.reached.max(now.saturating_sub(MOST_BEHIND_US));
        if now.saturating_sub(self.planned) > WOKEN_US {
            self.patient = now.saturating_add(WOKEN_US);
        }
    }

    /// Notes that all that came was read. Returns whether a silence begins; then none is to begin any more.
    pub fn listen(&mut self, now: u64) -> bool
        ensures begins { result ≡ falls_silent self.old now }
        ensures stands { self.new ≡ after_listening self.old now }
        ensures silence { falls_silent self.new now ≡ false }
        ensures timing { self.new.timing ≡ self.old.timing }
        ensures time { self.new.counted ≡ self.old.counted }
    {
        let begins = !self.silent
            && now.saturating_sub(self.heard) >= SILENCE_US
            && now >= self.patient;
        self.silent = self.silent || begins;
        self.listened = true;
        begins
    }

    /// Plans the next call, and returns when it is due if no packet comes.
    pub fn plan(&mut self, now: u64, reach: u16) -> u64
        ensures time { result ≡ next_time self.old now reach }
        ensures stands { self.new ≡ after_plan self.old now reach }
        ensures timing { self.new.timing ≡ self.old.timing }
        ensures counted { self.new.counted ≡ self.old.counted }
    {
        self.planned = self.next_time(now, reach);
        self.planned
    }

    // When something is due if no packet comes.
    fn next_time(&self, now: u64, reach: u16) -> u64
        ensures { result ≡ next_time self.now now reach }
    {
        if self.by_clock() {
            return self.reached.saturating_add(self.timing.packet);
        }
        if reach > self.timing.jitter {
            let lacks = (1000 * self.timing.packet).saturating_sub(self.credit);
            return now.saturating_add(lacks / CREDIT_PER_US + 1);
        }
        self.heard.saturating_add(SILENCE_US).max(self.patient)
    }
}
