use g704_align::Place::{Hunting, Slot};
use g704_align::{Aligner, Place};
use std::process::Abort;

// An aligner's first octets: FAS, NFAS and FAS 32 octets apart, and speech between them.
fn three_frames() -> [u8; 65] {
    let mut octets = [0xD5; 65];
    octets[0] = 0x9B;
    octets[32] = 0xDF;
    octets[64] = 0x9B;
    octets
}

#[test]
fn alignment_after_three_frames(rt: HostRuntime) {
    let mut aligner = Aligner::new();
    for octet in three_frames() {
        assert_eq!(rt; aligner.octet(octet), Place::Hunting);
    }
    assert_eq!(rt;
        aligner.octet(0xD5),
        Place::Slot {
            number: 1,
            fas: true
        }
    );
}

// An octet and how often it comes; the place of the last one, which all have if it is Hunting; and whether the
// there is an alarm after it.
type Run = (u32, u8, Place, bool);

// alignment_misled_first: octets 0 to 160 are hunted over.
const ALIGNMENT_MISLED_FIRST: [Run; 16] = [
    (1, 0xDF, Hunting, true),
    (4, 0xD5, Hunting, true),
    (1, 0x9B, Hunting, true),
    (26, 0xD5, Hunting, true),
    (1, 0x9B, Hunting, true),
    (4, 0xD5, Hunting, true),
    (1, 0x15, Hunting, true),
    (26, 0xD5, Hunting, true),
    (1, 0xDF, Hunting, true),
    (31, 0xD5, Hunting, true),
    (1, 0x9B, Hunting, true),
    (31, 0xD5, Hunting, true),
    (1, 0xDF, Hunting, true),
    (31, 0xD5, Hunting, true),
    (1, 0x9B, Hunting, false),
    (
        1,
        0xD5,
        Slot {
            number: 1,
            fas: true,
        },
        false,
    ),
];

// Three frames, then wrong signals at 128 and 192, up to octet 255.
const TWO_WRONG: [Run; 6] = [
    (1, 0x9B, Hunting, true),
    (31, 0xD5, Hunting, true),
    (1, 0xDF, Hunting, true),
    (31, 0xD5, Hunting, true),
    (1, 0x9B, Hunting, false),
    (
        191,
        0xD5,
        Slot {
            number: 31,
            fas: false,
        },
        false,
    ),
];

// alignment_lost_after_three_wrong, with octet 256, and not where its signal is right.
const ALIGNMENT_LOST_AFTER_THREE_WRONG: [Run; 1] = [(1, 0xD5, Hunting, true)];

const ALIGNMENT_STANDS: [Run; 1] = [(
    1,
    0x9B,
    Slot {
        number: 0,
        fas: true,
    },
    false,
)];

// all_signals
const ALL_SIGNALS: [Run; 1] = [(100_000, 0x9B, Hunting, true)];

// misled_by_a_slot: slot 5 looks like slot 0, on a trunk from its first octet on, and from its second.
const NOT_MISLED: [Run; 6] = [
    (1, 0x9B, Hunting, true),
    (4, 0xDF, Hunting, true),
    (1, 0x9B, Hunting, true),
    (58, 0xDF, Hunting, true),
    (1, 0x9B, Hunting, false),
    (
        1,
        0xDF,
        Slot {
            number: 1,
            fas: true,
        },
        false,
    ),
];

const MISLED_BY_A_SLOT: [Run; 8] = [
    (4, 0xDF, Hunting, true),
    (1, 0x9B, Hunting, true),
    (58, 0xDF, Hunting, true),
    (1, 0x9B, Hunting, true),
    (4, 0xDF, Hunting, true),
    (1, 0x9B, Hunting, false),
    (
        58,
        0xDF,
        Slot {
            number: 26,
            fas: false,
        },
        false,
    ),
    (
        1,
        0x9B,
        Slot {
            number: 27,
            fas: false,
        },
        false,
    ),
];

// Gives an octet a number of times: the place of the last one, and at how many there was no alignment.
fn given(aligner: &mut Aligner, times: u32, octet: u8) -> (Place, u32) {
    let (mut place, mut hunted) = (Hunting, 0u32);
    for _time in 0..times {
        place = aligner.octet(octet);
        if place == Hunting {
            hunted = hunted.saturating_add(1);
        }
    }
    (place, hunted)
}

fn are_placed(rt: &impl Abort, aligner: &mut Aligner, runs: &[Run]) {
    for (times, octet, place, alarm) in runs {
        let hunted = if *place == Hunting { *times } else { 0 };
        assert!(rt;
            given(aligner, *times, *octet) == (*place, hunted) && aligner.alarm() == *alarm
        );
    }
}

#[test]
fn worked_trunks(rt: HostRuntime) {
    are_placed(&rt, &mut Aligner::new(), &ALIGNMENT_MISLED_FIRST);
    let mut aligner = Aligner::new();
    are_placed(&rt, &mut aligner, &TWO_WRONG);
    let mut stands = aligner;
    are_placed(&rt, &mut aligner, &ALIGNMENT_LOST_AFTER_THREE_WRONG);
    are_placed(&rt, &mut stands, &ALIGNMENT_STANDS);
    are_placed(&rt, &mut Aligner::new(), &ALL_SIGNALS);
    are_placed(&rt, &mut Aligner::new(), &NOT_MISLED);
    are_placed(&rt, &mut Aligner::new(), &MISLED_BY_A_SLOT);
}
