use g704_slots::SlotMover;

// Slots in silence.
const IDLE: u8 = 0xD5;

// The octet of the trunk with this number, slot 1 of frame 0 the first: slot 16 has the signal in frame 0 of
// each multiframe and ABCD bits in the others, and speech is no signal.
fn trunk(number: usize) -> u8 {
    match (number % 31, number / 31 % 16) {
        (15, 0) => 0x0B,
        (15, _) => 0x99,
        _ => (number % 191) as u8 | 0x40,
    }
}

// The octet with this number of those that the card gives: it loses three.
fn given(number: usize) -> u8 {
    if number < 4000 {
        trunk(number)
    } else {
        trunk(number.saturating_add(3))
    }
}

// The octet of a slot in silence.
fn silence(number: usize) -> u8 {
    if number % 31 == 15 { 0xFF } else { IDLE }
}

// What is returned: the first signal is octet 15, and slot 16 is found four multiframes later. Three octets
// are lost, and the signals at 4479 and 4975 are in error. The first one of the search is then octet 5468,
// three octets too early, and slot 16 is found four multiframes behind it: 80 frames of silence.
fn returned(number: usize) -> u8 {
    match number {
        0..1999 => silence(number),
        1999..4975 => given(number),
        4975..7452 => silence(number),
        _ => trunk(number),
    }
}

#[test]
fn three_octets_lost(rt: HostRuntime) {
    let mut mover = SlotMover::new(IDLE, 0);
    for number in 0..9000usize {
        assert_eq!(rt; mover.octet(given(number)), returned(number));
    }
}

// The first octet is that of slot 11, so slot 16 comes ten octets before its place.
#[test]
fn begins_in_slot_11(rt: HostRuntime) {
    let mut mover = SlotMover::new(IDLE, 0);
    for number in 0..1989usize {
        assert_eq!(rt; mover.octet(trunk(number + 10)), silence(number));
    }
    for number in 1989..4000usize {
        assert_eq!(rt; mover.octet(trunk(number + 10)), trunk(number));
    }
}

// If slot 16 has nothing but zeros, the signals at 3487 and 3983 are in error, though their bits are right.
#[test]
fn all_zero_is_silent(rt: HostRuntime) {
    let mut mover = SlotMover::new(IDLE, 0);
    for number in 0..3000usize {
        let _octet = mover.octet(trunk(number));
    }
    for number in 3000..3983usize {
        let octet = if number % 31 == 15 { 0 } else { trunk(number) };
        assert_eq!(rt; mover.octet(octet), octet);
    }
    for number in 3983..9000usize {
        let octet = if number % 31 == 15 { 0 } else { trunk(number) };
        assert_eq!(rt; mover.octet(octet), silence(number));
    }
}
