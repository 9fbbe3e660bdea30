//! The tables of ITU-T Q.421: what a line sends, its next state by a signal, and the commands it accepts.

ghost use Rattle.std.specs.Prelude.{◌≡◌};
ghost use Rattle.q421_line.specs.Tables.{sent_pair, is_open, next_state, next_outgoing, next_incoming};
ghost use Rattle.q421_line.specs.Commands.{is_for, own_command_outcome, command_outcome};

use crate::pairs::Pair;
use crate::{Cmd, LineFault, Role, State};

// A signal in both directions, by bits a and b.
const IDLE: u8 = 0b10;

// Forward signals.
const SEIZING: u8 = 0b00;

const CLEAR_FORWARD: u8 = 0b10;

// Backward signals.
const SEIZING_ACKNOWLEDGED: u8 = 0b11;

const ANSWER: u8 = 0b01;

const CLEAR_BACK: u8 = 0b11;

const BLOCKING: u8 = 0b11;

// The pair that a line sends in a state.
#[tactic(auto, unfolding(crate::specs::Tables::sent_pair))]
pub(crate) fn sent_pair(role: Role, state: State) -> Pair
    ensures { result ≡ sent_pair role state }
{
    use Role::*;
    use State::*;
    let bits = match (role, state) {
        (Outgoing, Idle | Blocked | Fault) => IDLE,
        (Outgoing, Seized | Acked | Answered | ClearedBack) => SEIZING,
        (Outgoing, Releasing) => CLEAR_FORWARD,

        (Incoming, Idle) => IDLE,
        (Incoming, Acked) => SEIZING_ACKNOWLEDGED,
        (Incoming, Answered) => ANSWER,
        (Incoming, ClearedBack) => CLEAR_BACK,
        (Incoming, Blocked | Fault) => BLOCKING,
        // No incoming line is in these two.
        (Incoming, Seized | Releasing) => BLOCKING,
    };
    Pair::of_bits(bits)
}

// Whether the speech path is open in a state.
#[tactic(auto, unfolding(crate::specs::Tables::is_open))]
pub(crate) fn is_open(state: State) -> bool
    ensures { result ≡ is_open state }
{
    matches!(state, State::Acked | State::Answered | State::ClearedBack)
}

// The next state of a line by the recognised pair.
#[tactic(auto, unfolding(crate::specs::Tables::next_state))]
pub(crate) fn next_state(role: Role, state: State, recognised: Pair) -> State
    ensures { result ≡ next_state role state recognised }
{
    match role {
        Role::Outgoing => next_outgoing(state, recognised),
        Role::Incoming => next_incoming(state, recognised),
    }
}

// The next state by the backward pair. A meaningless pair is a fault, except in a release, which idle alone
// ends.
fn next_outgoing(state: State, backward: Pair) -> State
    ensures { result ≡ next_outgoing state backward }
{
    use State::*;
    match (state, backward.get()) {
        (Idle | Blocked | Fault, IDLE) => Idle,
        (Idle | Blocked | Fault, BLOCKING) => Blocked,
        (Idle | Blocked | Fault, _) => Fault,

        (Seized, IDLE) => Seized,
        (Seized, SEIZING_ACKNOWLEDGED) => Acked,
        (Seized, _) => Fault,

        (Acked, SEIZING_ACKNOWLEDGED) => Acked,
        (Acked, ANSWER) => Answered,
        (Acked, _) => Fault,

        (Answered | ClearedBack, CLEAR_BACK) => ClearedBack,
        (Answered | ClearedBack, ANSWER) => Answered,
        (Answered | ClearedBack, _) => Fault,

        (Releasing, IDLE) => Idle,
        (Releasing, _) => Releasing,
    }
}

// The next state by the forward pair. Bit b set is unexpected and a fault; clear-forward is answered by idle
// at once.
fn next_incoming(state: State, forward: Pair) -> State
    ensures { result ≡ next_incoming state forward }
{
    use State::*;
    match (state, forward.get()) {
        (Idle, IDLE) => Idle,
        (Idle, SEIZING) => Acked,
        (Idle, _) => Fault,

        (Acked, CLEAR_FORWARD) => Idle,
        (Acked, SEIZING) => Acked,
        (Acked, _) => Fault,

        (Answered, CLEAR_FORWARD) => Idle,
        (Answered, SEIZING) => Answered,
        (Answered, _) => Fault,

        (ClearedBack, CLEAR_FORWARD) => Idle,
        (ClearedBack, SEIZING) => ClearedBack,
        (ClearedBack, _) => Fault,

        // Only the operator lifts a block.
        (Blocked, _) => Blocked,

        // No incoming line is in the last two.
        (Fault | Seized | Releasing, IDLE) => Idle,
        (Fault | Seized | Releasing, _) => Fault,
    }
}

// The state after a command, or why it is refused.
#[tactic(auto, unfolding(crate::specs::Commands::command_outcome))]
pub(crate) fn command_outcome(role: Role, asked: Cmd, state: State) -> Result<State, LineFault>
    ensures { result ≡ command_outcome role asked state }
{
    if !is_for(role, asked) {
        return Err(LineFault::WrongRole);
    }
    own_command_outcome(asked, state)
}

// Whether a command is for this role: outgoing lines send forward signals, incoming ones backward signals.
fn is_for(role: Role, asked: Cmd) -> bool
    ensures { result ≡ is_for role asked }
{
    match role {
        Role::Outgoing => matches!(asked, Cmd::Seize | Cmd::Clear),
        Role::Incoming => matches!(
            asked,
            Cmd::Answer | Cmd::ClearBack | Cmd::Block | Cmd::Unblock
        ),
    }
}

// The outcome of a command that is for this role.
fn own_command_outcome(asked: Cmd, state: State) -> Result<State, LineFault>
    ensures { result ≡ own_command_outcome asked state }
{
    use Cmd::*;
    use LineFault::*;
    use State::*;
    match (asked, state) {
        (Seize, Idle) => Ok(Seized),
        (Seize, _) => Err(NotIdle),

        (Clear, Seized | Acked | Answered | ClearedBack) => Ok(Releasing),
        (Clear, _) => Err(NotInCall),

        (Answer, Acked | ClearedBack) => Ok(Answered),
        (Answer, _) => Err(NotSeized),

        (ClearBack, Answered) => Ok(ClearedBack),
        (ClearBack, _) => Err(NotInCall),

        (Block, Idle) => Ok(Blocked),
        (Block, _) => Err(NotIdle),

        (Unblock, Blocked) => Ok(Idle),
        (Unblock, _) => Err(NotBlocked),
    }
}
