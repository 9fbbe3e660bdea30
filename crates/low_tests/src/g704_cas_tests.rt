use g704_cas::MfPlace::{Frame, Hunting};
use g704_cas::{MfAligner, MfPlace};
use std::process::Abort;

// An octet, how often it comes in slot 16, the place of the last one, and whether there is an alarm after it.
type Run = (u32, u8, MfPlace, bool);

const MULTIFRAME_FOUND: [Run; 4] = [
    (1, 0x00, Hunting, true),
    (1, 0x0B, Hunting, true),
    (1, 0x99, Hunting, true),
    (1, 0x0B, Frame(0), false),
];

const MULTIFRAME_FOUND_AND_LOST: [Run; 7] = [
    (1, 0x99, Hunting, true),
    (1, 0x09, Frame(0), false),
    (15, 0x99, Frame(15), false),
    (1, 0x99, Frame(0), false),
    (15, 0x99, Frame(15), false),
    (1, 0x99, Hunting, true),
    (1, 0x0B, Frame(0), false),
];

// multiframe_after_lost: octet 99 comes before it is lost.
const MULTIFRAME_AFTER_LOST: [Run; 3] = [
    (1, 0x0B, Hunting, true),
    (1, 0x99, Hunting, true),
    (1, 0x0B, Frame(0), false),
];

// Gives an octet a number of times, and returns the place of the last one.
fn given(aligner: &mut MfAligner, times: u32, octet: u8) -> MfPlace {
    let mut place = Hunting;
    for _time in 0..times {
        place = aligner.slot16(octet);
    }
    place
}

fn are_placed(rt: &impl Abort, aligner: &mut MfAligner, runs: &[Run]) {
    for (times, octet, place, alarm) in runs {
        assert!(rt; given(aligner, *times, *octet) == *place && aligner.alarm() == *alarm);
    }
}

#[test]
fn multiframe_found_and_lost(rt: HostRuntime) {
    are_placed(&rt, &mut MfAligner::new(), &MULTIFRAME_FOUND);
    are_placed(&rt, &mut MfAligner::new(), &MULTIFRAME_FOUND_AND_LOST);
    let mut aligner = MfAligner::new();
    let _place = aligner.slot16(0x99);
    aligner.lost();
    are_placed(&rt, &mut aligner, &MULTIFRAME_AFTER_LOST);
}
