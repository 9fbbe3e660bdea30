ghost use Rattle.std.specs.Prelude.{◌≡◌, None, length};

use arrayvec::ArrayVec;
use gw_filter::align_stream;
use gw_records::{NO_TOTALS, RunFault, Sink, SinkFault, Source, SourceFault, Totals};

// The octet at a place of the far end's trunk: slot 0 as it is to be, and speech that is no signal.
fn trunk(place: usize) -> u8 {
    match place % 64 {
        0 => 0x9B,
        32 => 0xDF,
        _ => (place % 251) as u8 | 0x44,
    }
}

// The octet of the trunk that comes three bits late, behind ones.
fn late(place: usize) -> u8 {
    let before = if place == 0 {
        0xFF
    } else {
        trunk(place.wrapping_sub(1))
    };
    (before << 5) | (trunk(place) >> 3)
}

// Puts the octets of the late trunk from a place on.
fn fill(octets: &mut [u8], start: usize)
    ensures { length octets.new ≡ length octets.old }
{
    let mut place = start;
    for octet in octets.iter_mut() {
        *octet = late(place);
        place = place.wrapping_add(1);
    }
}

// Gives the 600 octets of a late trunk, at most 100 in a read, and fails at one read.
#[derive(Drop)]
struct LateTrunk {
    at: usize,
    fails_at: usize,
    failed: u64,
    reads: u64,
}

impl LateTrunk {
    // The trunk before its first octet, whose read fails behind this many octets.
    fn new(fails_at: usize) -> LateTrunk
        ensures failed { result.failed ≡ 0 }
        ensures reads { result.reads ≡ 0 }
    {
        LateTrunk {
            at: 0,
            fails_at,
            failed: 0,
            reads: 0,
        }
    }
}

impl Source for LateTrunk {
    ghost tells = { λ s. record { failures = s.failed; reads = s.reads; given = None; to_come = None } };

    fn read(&mut self, buf: &mut [u8]) -> Result<usize, SourceFault> {
        if self.at == self.fails_at {
            self.failed = self.failed.saturating_add(1);
            return Err(SourceFault);
        }
        let n = 600usize.saturating_sub(self.at).min(100).min(buf.len());
        fill(&mut buf[..n], self.at);
        self.at = self.at.saturating_add(n);
        self.reads = self.reads.saturating_add(1);
        Ok(n)
    }
}

// Takes octets while it has room for them.
#[derive(Drop)]
struct Taken {
    octets: ArrayVec<u8, 600>,
    room: usize,
    failed: u64,
}

impl Taken {
    // A sink with room for this many octets.
    fn new(room: usize) -> Taken
        ensures { result.failed ≡ 0 }
    {
        Taken {
            octets: ArrayVec::new(),
            room,
            failed: 0,
        }
    }
}

impl Sink for Taken {
    ghost tells = { λ s. record { failures = s.failed; taken = None } };

    fn write(&mut self, octets: &[u8]) -> Result<usize, SinkFault> {
        let n = octets
            .len()
            .min(self.room.saturating_sub(self.octets.len()));
        if n < octets.len() || self.octets.try_extend_from_slice(octets).is_err() {
            self.failed = self.failed.saturating_add(1);
            return Err(SinkFault);
        }
        Ok(n)
    }
}

#[test]
fn three_bits_late(rt: HostRuntime) {
    let mut sink = Taken::new(600);
    let ended = align_stream(&mut LateTrunk::new(1000), &mut sink);
    let totals = Totals {
        octets: 600,
        ..NO_TOTALS
    };
    assert!(rt; ended == Ok(totals));
    assert!(rt; sink.octets.len() == 600);
    for (place, octet) in sink.octets.iter().enumerate() {
        // the third signal ends three bits behind octet 64
        let expected = if place < 65 {
            late(place)
        } else {
            trunk(place.wrapping_sub(1))
        };
        assert!(rt; *octet == expected, "at {place}");
    }
}

// A read that fails: what came before it is written. A write that fails ends it.
#[test]
fn a_read_or_a_write_fails(rt: HostRuntime) {
    for (fails_at, room, fault, written) in [
        (300, 600, RunFault::Read, 300),
        (1000, 250, RunFault::Write, 200),
    ] {
        let mut source = LateTrunk::new(fails_at);
        let mut sink = Taken::new(room);
        assert!(rt; align_stream(&mut source, &mut sink) == Err(fault));
        assert!(rt; sink.octets.len() == written && source.at == 300);
        assert!(rt; sink.octets.last() == Some(&trunk(written.saturating_sub(2))));
    }
}
