//! The line saved as octets, and loaded from them.

ghost use Rattle.std.specs.Prelude.{◌≡◌, ◌++◌, ◌∷◌, ℕ, List, OnOk, IfSome, Some};
ghost use Rattle.q421_line.specs.declared.State.{State};
ghost use Rattle.q421_line.specs.declared.signalling.Line.{Line};
ghost use Rattle.q421_line.specs.Saved.{saved_line, state_number, LineFits};

use crate::recognition::Recognition;
use crate::{Line, Role, State};
use saved_octets::{OctetReader, append_u8, append_u16};
use std::alloc::AllocError;

impl Line {
    /// Appends the octets of the line.
    pub fn save(&self, out: &mut Vec<u8>) -> Result<(), AllocError>
        ensures octets { OnOk result (out.new.items ≡ out.old.items ++ saved_line self.now) }
        ensures fits { LineFits self.now }
    {
        self.fits();
        append_u8(out, state_number(self.state))?;
        append_u16(out, self.seized_for)?;
        append_u16(out, self.released_after)?;
        self.recognition.save(out)
    }

    // Each number of a line fits its saved width.
    fn fits(&self)
        ensures { LineFits self.now }
    {
        let _seized_for = self.seized_for;
        let _released_after = self.released_after;
        self.recognition.fits();
    }

    /// Reads a saved line and gives it this role; None if the octets are not those of a line.
    pub fn load(role: Role, octets: &mut OctetReader<'_>) -> Option<Line>
        ensures loaded { (line : Line) (rest : List ℕ) → line.role ≡ role → LineFits line
            → octets.old ≡ saved_line line ++ rest → (result ≡ Some line) × (octets.new ≡ rest) }
        ensures read { IfSome result (λ line. octets.old ≡ saved_line line ++ octets.new) }
        ensures role { IfSome result (λ line. line.role ≡ role) }
    {
        let state = load_state(octets)?;
        let seized_for = octets.read_u16()?;
        let released_after = octets.read_u16()?;
        let recognition = Recognition::load(octets)?;
        Some(Line {
            role,
            state,
            seized_for,
            released_after,
            recognition,
        })
    }
}

fn state_number(state: State) -> u8
    ensures { result ≡ state_number state }
{
    match state {
        State::Idle => 0,
        State::Seized => 1,
        State::Acked => 2,
        State::Answered => 3,
        State::ClearedBack => 4,
        State::Releasing => 5,
        State::Blocked => 6,
        State::Fault => 7,
    }
}

fn load_state(octets: &mut OctetReader<'_>) -> Option<State>
    ensures loaded { (state : State) (rest : List ℕ) → octets.old ≡ state_number state ∷ rest
        → (result ≡ Some state) × (octets.new ≡ rest) }
    ensures read { IfSome result (λ state. octets.old ≡ state_number state ∷ octets.new) }
{
    match octets.read_u8()? {
        0 => Some(State::Idle),
        1 => Some(State::Seized),
        2 => Some(State::Acked),
        3 => Some(State::Answered),
        4 => Some(State::ClearedBack),
        5 => Some(State::Releasing),
        6 => Some(State::Blocked),
        7 => Some(State::Fault),
        _ => None,
    }
}
