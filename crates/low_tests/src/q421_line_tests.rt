use Cmd::*;
use Role::*;
use State::*;
use g704_cas::Nibble;
use q421_line::{Cmd, Line, Role, State};
use std::process::Abort;

// What a line is given in a test: a nibble a number of times, or a command.
#[derive(Clone, Copy)]
enum Step {
    Heard(u8, u8),
    Asked(Cmd),
}

use Step::*;

// Gives a step to the line: the nibble that it sent last in it, or 0 or the number of a fault.
fn given(line: &mut Line, step: Step) -> u8 {
    match step {
        Heard(bits, times) => {
            let mut sent = 0;
            for _time in 0..times {
                sent = line.signal(Nibble::new(bits)).get();
            }
            sent
        }
        Asked(asked) => match line.command(asked) {
            Ok(()) => 0,
            Err(fault) => fault.number(),
        },
    }
}

// A step, what it gives, and the state after it.
type Row = (Step, u8, State);

const OUTGOING_CALL: [Row; 16] = [
    (Heard(0b1001, 9), 0b1001, Fault),
    (Heard(0b1001, 1), 0b1001, Idle),
    (Asked(Seize), 0, Seized),
    (Heard(0b1001, 1), 0b0001, Seized),
    (Heard(0b1101, 9), 0b0001, Seized),
    (Heard(0b1101, 1), 0b0001, Acked),
    (Heard(0b0101, 10), 0b0001, Answered),
    (Heard(0b1101, 10), 0b0001, ClearedBack),
    (Asked(Clear), 0, Releasing),
    (Heard(0b1001, 1), 0b1001, Releasing),
    (Heard(0b1001, 9), 0b1001, Idle),
    (Asked(Seize), 0, Seized),
    (Heard(0b1001, 99), 0b0001, Seized),
    (Heard(0b1001, 1), 0b1001, Releasing),
    (Heard(0b1001, 1), 0b1001, Idle),
    (Asked(Answer), WRONG_ROLE, Idle),
];

const INCOMING_BLOCK: [Row; 10] = [
    (Heard(0b1001, 10), 0b1001, Idle),
    (Asked(Block), 0, Blocked),
    (Heard(0b0001, 1), 0b1101, Blocked),
    (Heard(0b0001, 9), 0b1101, Blocked),
    (Asked(Unblock), 0, Idle),
    (Heard(0b0001, 1), 0b1101, Acked),
    (Asked(Block), NOT_IDLE, Acked),
    (Asked(Unblock), NOT_BLOCKED, Acked),
    (Asked(ClearBack), NOT_IN_CALL, Acked),
    (Asked(Seize), WRONG_ROLE, Acked),
];

// The numbers of the faults.
const WRONG_ROLE: u8 = 1;

const NOT_IDLE: u8 = 2;

const NOT_IN_CALL: u8 = 4;

const NOT_BLOCKED: u8 = 5;

fn follow(rt: &impl Abort, role: Role, rows: &[Row]) {
    let mut line = Line::new(role);
    for (step, told, state) in rows {
        assert!(rt; given(&mut line, *step) == *told && line.state() == *state);
    }
}

#[test]
fn outgoing_call(rt: HostRuntime) {
    follow(&rt, Outgoing, &OUTGOING_CALL);
}

#[test]
fn incoming_block(rt: HostRuntime) {
    follow(&rt, Incoming, &INCOMING_BLOCK);
}

#[test]
fn seized_once_idle(rt: HostRuntime) {
    let mut line = Line::new(Role::Outgoing);
    for _multiframe in 0..10u8 {
        let _sent = line.signal(Nibble::new(0b1001));
    }
    assert_eq!(rt; line.state(), State::Idle);
    assert_eq!(rt; line.command(Cmd::Seize), Ok(()));
    assert_eq!(rt; line.signal(Nibble::new(0b1001)).get(), 0b0001);
}
