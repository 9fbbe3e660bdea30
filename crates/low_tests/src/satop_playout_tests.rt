use satop_playout::{ArrivalFault, Replacement, SatopPlayout, Settings};
use std::alloc::Global;
use std::process::Abort;
use std::test::Fail;

// Packets of 1 ms.
const SIZE: usize = 256;

// Ones, which replace a packet where nothing is repeated.
const ONES: u8 = 0xFF;

// The numbers of packets that arrive, each with octets that are all its number modulo 256, and are accepted;
// then the octets of the packets that are played, and whether those were there.
type Step = (&'static [u16], &'static [u8], bool);

// A playout of such packets, 125 of which may be waited for; a stream has begun with this number.
fn begun(
    rt: &impl Abort,
    alloc: Global,
    fill: Replacement,
    first: u16,
) -> Result<SatopPlayout, Fail> {
    let settings = Settings::new(SIZE, 125, fill).expect(rt, "settings");
    let mut playout = SatopPlayout::new(alloc, settings)?;
    playout.begin(first);
    Ok(playout)
}

fn are_accepted(rt: &impl Abort, playout: &mut SatopPlayout, numbers: &[u16]) {
    for number in numbers {
        let octets = [(*number % 256) as u8; SIZE];
        assert!(rt; playout.arrive(*number, &octets).is_ok());
    }
}

fn are_played(rt: &impl Abort, playout: &mut SatopPlayout, octets: &[u8], are_there: bool) {
    let mut room = [0u8; SIZE];
    for octet in octets {
        assert!(rt; playout.settings().size == SIZE);
        assert!(rt; playout.play(&mut room) == are_there && room == [*octet; SIZE]);
    }
}

fn follow(rt: &impl Abort, playout: &mut SatopPlayout, steps: &[Step]) {
    for (numbers, octets, are_there) in steps {
        are_accepted(rt, playout, numbers);
        are_played(rt, playout, octets, *are_there);
    }
}

// With memory refused at either of the requests that `new` makes (`rt try --test --fail-alloc N`) there is no
// playout, and nothing else happens.
#[test]
fn order_is_restored(rt: HostRuntime) -> Result<(), Fail> {
    let mut playout = begun(&rt, rt.alloc(), Replacement::Again, 65_534)?;
    are_accepted(&rt, &mut playout, &[1, 65_535, 0, 65_534]);
    assert!(rt; playout.reach() == 4);
    are_played(&rt, &mut playout, &[254, 255, 0, 1], true);
    assert!(rt; playout.reach() == 0);
    assert!(rt; playout.arrive(0, &[0; SIZE]) == Err(ArrivalFault::Late));
    are_accepted(&rt, &mut playout, &[2]);
    assert!(rt; playout.arrive(2, &[0; SIZE]) == Err(ArrivalFault::Repeat));
    Ok(())
}

// A lost packet is replaced by that of two packets before; after 8 ms without packets ones are played.
const AGAIN: [Step; 6] = [
    (&[], &[ONES], false),
    (&[11, 12, 14], &[11, 12], true),
    (&[], &[11], false),
    (&[], &[14], true),
    (&[], &[11, 14, 11, 14, 11, 14, 11, 14, ONES], false),
    (&[24], &[24], true),
];

const WITH_ONES: [Step; 3] = [
    (&[10, 11, 13], &[10, 11], true),
    (&[], &[ONES], false),
    (&[], &[13], true),
];

#[test]
fn losses_are_filled(rt: HostRuntime) -> Result<(), Fail> {
    let mut playout = begun(&rt, rt.alloc(), Replacement::Again, 10)?;
    follow(&rt, &mut playout, &AGAIN);
    let mut playout = begun(&rt, rt.alloc(), Replacement::Ones, 10)?;
    follow(&rt, &mut playout, &WITH_ONES);
    Ok(())
}
