//! What a line does with a signal and a command, and when a seizure is released (`Line`).

ghost use Rattle.std.specs.Prelude.{◌≡◌, ℕ, ◌<◌, List, [], ◌∷◌, ◌++◌, OnErr};
ghost use Rattle.q421_line.specs.Recognition.{recognised};
ghost use Rattle.q421_line.specs.Tables.{sent_pair, sent_nibble, is_open};
ghost use Rattle.q421_line.specs.Commands.{command_outcome, told_of};
ghost use Rattle.q421_line.specs.Signalling.{LineEvent, signal, command, wait};
ghost use Rattle.q421_line.specs.Signalling.{signalling, next_by, after_count};
ghost use Rattle.q421_line.specs.Line.{HasHistory};
ghost use Rattle.q421_line.specs.Laws.{wait_after};

mod saving;

use crate::pairs::Pair;
use crate::recognition::Recognition;
use crate::{Cmd, LineFault, Role, State, tables};
use g704_cas::Nibble;

// Signals after which an unacknowledged seizure is released by default: at one every 2 ms, 200 ms.
const RELEASED_AFTER: u16 = 100;

/// The line signals of one end of a circuit (ITU-T Q.421).
///
/// ```rust
/// let mut line = Line::new(Role::Outgoing);                   // nothing is known of the other end
/// for _multiframe in 0..10u8 {
///     let _sent = line.signal(Nibble::new(0b1001));           // the other end is idle
/// }
/// assert_eq!(rt; line.state(), State::Idle);
/// assert_eq!(rt; line.command(Cmd::Seize), Ok(()));
/// assert_eq!(rt; line.signal(Nibble::new(0b1001)).get(), 0b0001);     // the seizure is sent
/// ```
#[derive(Clone, Copy, Debug, PartialEq, Eq)]
pub struct Line {
    role: Role,
    state: State,
    // The signals that the present seizure has lasted; 0 in every state except `Seized`.
    seized_for: u16,
    // The number of signals after which an unacknowledged seizure is released.
    released_after: u16,
    recognition: Recognition,
}

impl Line {
    /// A line in this role that has received nothing.
    ///
    /// It begins in `Fault`, and releases a seizure at its hundredth signal.
    pub fn new(role: Role) -> Self
        ensures { HasHistory result role [] }
    {
        Line {
            role,
            state: State::Fault,
            seized_for: 0,
            released_after: RELEASED_AFTER,
            recognition: Recognition::new(),
        }
    }

    /// Takes the received nibble, if any, and returns the one to send.
    ///
    /// This is the line's turn, once in a multiframe of 2 ms. With every signal the recognised pair gives the
    /// next state. A seizure that is not acknowledged within its wait is released.
    pub fn signal(&mut self, heard: Option<Nibble>) -> Nibble
        ensures sent { (role : Role) (items : List LineEvent) → HasHistory self.old role items
            → result ≡ sent_nibble (sent_pair role (signalling role (items ++ signal heard ∷ [])).state) }
        ensures stands { (role : Role) (items : List LineEvent) → HasHistory self.old role items
            → HasHistory self.new role (items ++ signal heard ∷ []) }
        ensures in_range { result < 16 }
    {
        self.recognition.receive(heard);
        let next = next_by(self.role, self.state, self.recognition.recognised());
        let (state, seized_for) = count_seizure(
            self.released_after,
            self.state,
            next,
            self.seized_for,
        );
        self.state = state;
        self.seized_for = seized_for;
        self.sent().nibble()
    }

    /// Does an operator's command, or refuses it.
    ///
    /// `WrongRole` if the command is for the other role; otherwise the command's own fault if it is not
    /// possible in the state. A refused command changes nothing.
    pub fn command(&mut self, asked: Cmd) -> Result<(), LineFault>
        ensures answer { (role : Role) (items : List LineEvent) → HasHistory self.old role items
            → result ≡ told_of (command_outcome role asked (signalling role items).state) }
        ensures stands { (role : Role) (items : List LineEvent) → HasHistory self.old role items
            → HasHistory self.new role (items ++ command asked ∷ []) }
        ensures err { OnErr result (self.new ≡ self.old) }
    {
        self.state = tables::command_outcome(self.role, asked, self.state)?;
        self.seized_for = 0;
        Ok(())
    }

    /// Sets the wait for an acknowledgement.
    ///
    /// From now on a seizure is released at this number of signals, or at the next signal if it has lasted
    /// longer already. One signal comes every 2 ms.
    pub fn release_after(&mut self, signals: u16)
        ensures { (role : Role) (items : List LineEvent) → HasHistory self.old role items
            → HasHistory self.new role (items ++ wait signals ∷ []) }
    {
        self.released_after = signals;
    }

    /// The wait for an acknowledgement: at how many signals a seizure is released.
    pub fn released_after(&self) -> u16
        ensures { (role : Role) (items : List LineEvent) → HasHistory self.now role items
            → result ≡ wait_after items }
    {
        self.released_after
    }

    /// The state of the line.
    pub fn state(&self) -> State
        ensures { (role : Role) (items : List LineEvent) → HasHistory self.now role items
            → result ≡ (signalling role items).state }
    {
        self.state
    }

    /// The pair sent in the present state, also between a command and the next signal.
    pub fn sent(&self) -> Pair
        ensures { (role : Role) (items : List LineEvent) → HasHistory self.now role items
            → result ≡ sent_pair role (signalling role items).state }
    {
        tables::sent_pair(self.role, self.state)
    }

    /// The recognised pair, `None` until the first is recognised.
    pub fn recognised(&self) -> Option<Pair>
        ensures { (role : Role) (items : List LineEvent) → HasHistory self.now role items
            → result ≡ recognised (signalling role items).pairs }
    {
        self.recognition.recognised()
    }

    /// Whether the speech path is open: from the acknowledgement of a seizure to the end of the call.
    pub fn open(&self) -> bool
        ensures { (role : Role) (items : List LineEvent) → HasHistory self.now role items
            → result ≡ is_open (signalling role items).state }
    {
        tables::is_open(self.state)
    }
}

// The next state, if a pair is recognised.
fn next_by(role: Role, state: State, recognised: Option<Pair>) -> State
    ensures { result ≡ next_by role state recognised }
{
    match recognised {
        Some(pair) => tables::next_state(role, state, pair),
        None => state,
    }
}

// The state after a signal, and how many signals its seizure has lasted.
fn count_seizure(released_after: u16, before: State, after: State, seized_for: u16) -> (State, u16)
    ensures state { (pairs : List ℕ)
        → result.0 ≡ (after_count released_after pairs before after seized_for).state }
    ensures seized_for { (pairs : List ℕ)
        → result.1 ≡ (after_count released_after pairs before after seized_for).seized_for }
{
    use State::*;
    match (before, after) {
        (Seized, Seized) if seized_for < released_after.saturating_sub(1) => (
            Seized,
            seized_for + 1,
        ),
        (Seized, Seized) => (Releasing, 0),
        _ => (after, 0),
    }
}
