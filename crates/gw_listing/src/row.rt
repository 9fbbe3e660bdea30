//! The columns of a circuit's line, and the names of roles and states in it (`line`).

ghost use Rattle.std.specs.Prelude.{◌≡◌, ◌≤◌, ◌+◌, [], ◌++◌, length};
ghost use Rattle.arrayvec.specs.ArrayString.{array_string_len};
ghost use Rattle.gw_listing.specs.Row.{role_name, state_name, pair_text, recognised_text, line_part, row};

use crate::padding::{push_digit, push_left, push_right};
use arrayvec::ArrayString;
use g704_cas::CircuitNo;
use g726_codec::CodecName;
use gw_circuit::Status;
use q421_line::{Pair, Role, State};

// The name of a role.
fn role_name(role: Role) -> &'static str
    ensures text { result.now ≡ role_name role }
    ensures len { length result.now ≤ 8 }
{
    match role {
        Role::Outgoing => "outgoing",
        Role::Incoming => "incoming",
    }
}

// The name of a state of the line.
fn state_name(state: State) -> &'static str
    ensures text { result.now ≡ state_name state }
    ensures len { length result.now ≤ 11 }
{
    match state {
        State::Idle => "idle",
        State::Seized => "seized",
        State::Acked => "acked",
        State::Answered => "answered",
        State::ClearedBack => "clearedback",
        State::Releasing => "releasing",
        State::Blocked => "blocked",
        State::Fault => "fault",
    }
}

// Adds a pair of signalling bits, a and then b.
fn push_pair(line: &mut ArrayString<96>, pair: Pair)
    requires { array_string_len line.old + 2 ≤ 96 }
    ensures bytes { line.new.bytes ≡ line.old.bytes ++ pair_text pair }
    ensures len { array_string_len line.new ≡ array_string_len line.old + 2 }
{
    let bits = u32::from(pair.get());
    push_digit(line, bits / 2);
    push_digit(line, bits % 2);
}

// Adds the recognised pair, or two hyphens if there is none.
fn push_recognised(line: &mut ArrayString<96>, pair: Option<Pair>)
    requires { array_string_len line.old + 2 ≤ 96 }
    ensures bytes { line.new.bytes ≡ line.old.bytes ++ recognised_text pair }
    ensures len { array_string_len line.new ≡ array_string_len line.old + 2 }
{
    match pair {
        Some(pair) => push_pair(line, pair),
        None => line.push_str("--"),
    }
}

// Writes the columns of the line's signalling: number, role, state and pairs.
#[tactic(auto, unfolding(crate::specs::Row::line_part))]
fn push_line_part(line: &mut ArrayString<96>, circuit: CircuitNo, status: &Status)
    requires { line.old.bytes ≡ [] }
    ensures bytes { line.new.bytes ≡ line_part circuit status.now }
    ensures len { array_string_len line.new ≡ 29 }
{
    push_right(line, 2, u32::from(circuit.get()));
    line.push(' ');
    push_left(line, 8, role_name(status.role));
    line.push(' ');
    push_left(line, 11, state_name(status.state));
    line.push(' ');
    push_pair(line, status.sent);
    line.push(' ');
    push_recognised(line, status.recognised);
}

/// The line of a circuit in a listing: 74 characters of ASCII without a line end, in columns with one space
/// between them.
///
/// | Column | Width | Contents |
/// |---|---|---|
/// | circuit | 2, right | 1 to 30 |
/// | role | 8, left | outgoing or incoming |
/// | state | 11, left | idle, seized, acked, answered, clearedback, releasing, blocked or fault |
/// | sent | 2 | the bits a and b that the line sends |
/// | recognised | 2 | the bits a and b that it has recognised, or `--` |
/// | datagrams sent | 10, right | at most 4294967295, as the next two |
/// | datagrams received | 10, right | those that were admitted |
/// | datagrams dropped | 10, right | those that were not |
/// | codec | 7, left | pcma, pcmu, g726-16, g726-24, g726-32 or g726-40 |
/// | payload type | 3, right | 0 to 127 |
///
/// ```text
///  1 outgoing fault       10 --          0          0          0 pcma      8
/// ```
#[tactic(auto, unfolding(crate::specs::Row::row), using(crate::proofs::Decimals::ten_digits))]
pub fn line(circuit: CircuitNo, status: &Status) -> ArrayString<96>
    ensures bytes { result.bytes ≡ row circuit status.now }
    ensures len { array_string_len result ≡ 74 }
{
    let mut line = ArrayString::new();
    push_line_part(&mut line, circuit, status);
    line.push(' ');
    push_right(&mut line, 10, status.sent_count);
    line.push(' ');
    push_right(&mut line, 10, status.received);
    line.push(' ');
    push_right(&mut line, 10, status.dropped);
    line.push(' ');
    push_left(&mut line, 7, CodecName::of(status.law, status.codec).text());
    line.push(' ');
    push_right(&mut line, 3, u32::from(status.payload_type));
    line
}
