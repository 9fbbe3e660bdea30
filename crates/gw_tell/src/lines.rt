//! The text of each line that a client of `--tell` gets: alarms, events, circuits, counts, seizures.

ghost use Rattle.std.specs.Prelude.{◌≡◌, ◌≤◌, ◌+◌, ◌++◌, length};
ghost use Rattle.gw_records.specs.Records.{named};
ghost use Rattle.gw_tell.specs.Lines.{at_line, flag, alarms_line, counts_line, event_line, row_line};
ghost use Rattle.gw_tell.specs.Lines.{hello_line, seizures_line};

use crate::counts::DatagramCounts;
use crate::header::rtp_header;
use crate::text::{Text, push, push_line, push_numbers};
use e1_g711::Law;
use g704_cas::CircuitNo;
use gw_circuit::Status;
use gw_records::{RecordHead, octet_of_codec, octet_of_command};
use gw_switch::Alarms;

/// Adds the line `at` of a place on the trunk.
pub fn push_at(text: &mut Text, place: u64)
    requires { length text.old.items + 24 ≤ 13500 }
    ensures line { text.new.items ≡ text.old.items ++ at_line place }
    ensures len { length text.new.items ≤ length text.old.items + 24 }
{
    push_line(text, b"at", &[place]);
}

// An alarm as a number.
fn flag(alarm: bool) -> u64
    ensures { result ≡ flag alarm }
{
    if alarm { 1 } else { 0 }
}

/// Adds the line of the alarms.
pub fn push_alarms(text: &mut Text, alarms: &Alarms)
    requires { length text.old.items + 91 ≤ 13500 }
    ensures line { text.new.items ≡ text.old.items ++ alarms_line alarms.now }
    ensures len { length text.new.items ≤ length text.old.items + 91 }
{
    let numbers = [
        flag(alarms.frame),
        flag(alarms.multiframe),
        flag(alarms.remote_frame),
        flag(alarms.remote_multiframe),
    ];
    push_line(text, b"alarms", &numbers);
}

/// Adds the line of a record that was answered with this code, if it has one.
pub fn push_event(text: &mut Text, head: &RecordHead, body: &[u8], code: u8)
    requires { length text.old.items + 114 ≤ 13500 }
    ensures line { text.new.items ≡ text.old.items ++ event_line (named head.now body.now) code }
    ensures len { length text.new.items ≤ length text.old.items + 114 }
{
    let code = u64::from(code);
    match *head {
        RecordHead::Trunk => {}
        RecordHead::Datagram(circuit) => {
            let header = rtp_header(body);
            let numbers = [
                u64::from(circuit.get()),
                code,
                u64::from(header.sequence),
                u64::from(header.timestamp),
                u64::from(header.ssrc),
            ];
            push_line(text, b"datagram", &numbers);
        }
        RecordHead::Command(circuit, command) => {
            let command = u64::from(octet_of_command(command));
            push_line(text, b"command", &[u64::from(circuit.get()), command, code]);
        }
        RecordHead::Codec(circuit, codec, payload_type) => {
            let codec = u64::from(octet_of_codec(codec));
            let numbers = [
                u64::from(circuit.get()),
                codec,
                u64::from(payload_type),
                code,
            ];
            push_line(text, b"codec", &numbers);
        }
    }
}

/// Adds the line of a circuit.
#[tactic(auto, unfolding(crate::specs::Lines::row_line))]
pub fn push_row(text: &mut Text, circuit: CircuitNo, status: &Status)
    requires { length text.old.items + 80 ≤ 13500 }
    ensures line { text.new.items ≡ text.old.items ++ row_line circuit status.now }
    ensures len { length text.new.items ≡ length text.old.items + 80 }
{
    push(text, b"line ");
    push(text, gw_listing::line(circuit, status).as_str().as_bytes());
    push(text, b"\n");
}

/// Adds the line of what is counted of a circuit's datagrams.
pub fn push_counts(text: &mut Text, circuit: CircuitNo, counts: &DatagramCounts)
    requires { length text.old.items + 343 ≤ 13500 }
    ensures line { text.new.items ≡ text.old.items ++ counts_line circuit counts.now }
    ensures len { length text.new.items ≤ length text.old.items + 343 }
{
    let stream = &counts.stream;
    let numbers = [
        u64::from(circuit.get()),
        counts.accepted,
        stream.lost,
        stream.jitter / 16,
    ];
    push(text, b"counts");
    push_numbers(text, &numbers);
    push_numbers(text, &counts.refused);
    text.push(b'\n');
}

/// Adds the line of how often each circuit was seized.
pub fn push_seizures(text: &mut Text, counts: &[u64; 30])
    requires { length text.old.items + 639 ≤ 13500 }
    ensures line { text.new.items ≡ text.old.items ++ seizures_line counts.now }
    ensures len { length text.new.items ≤ length text.old.items + 639 }
{
    push_line(text, b"seizures", counts);
}

/// The first line that a client gets, with the law.
pub fn hello_line(law: Law) -> &'static [u8]
    ensures line { result.now ≡ hello_line law }
    ensures len { length result.now ≤ 15 }
{
    match law {
        Law::A => b"e1gw tell 1 A\n",
        Law::Mu => b"e1gw tell 1 mu\n",
    }
}
