//! Which changes a record brings to clients of `--tell`, and what a new client gets.

ghost use Rattle.std.specs.Prelude.{◌≡◌, ◌≤◌, ◌+◌, ◌*◌, ◌++◌, ℕ, [], length};
ghost use Rattle.gw_records.specs.Records.{named};
ghost use Rattle.gw_tell.specs.Lines.{row_line};
ghost use Rattle.gw_tell.specs.Reports.{counted_as, quiet_at, RowStep, RowSteps, AlarmsStep, place_after};
ghost use Rattle.gw_tell.specs.Reports.{are_due};
ghost use Rattle.gw_tell.specs.Reports.{Changes, IsStatusOf, counts_lines, due_lines, told_line, row_lines};
ghost use Rattle.gw_tell.specs.Reports.{whole_state};
ghost use Rattle.gw_tell.specs.Counts.{counts_at, told_at};

use crate::counts::{DatagramCounts, set_told};
use crate::gateway_status::{GatewayStatus, circuit};
use crate::lines::{hello_line, push_alarms, push_at, push_counts, push_row, push_seizures};
use crate::text::{Text, push};
use e1_g711::Law;
use g704_cas::CircuitNo;
use gw_circuit::Status;
use gw_records::RecordHead;
use gw_switch::Alarms;

// How many octets of the trunk there are between two reports of counts.
const COUNTS_EVERY: u64 = 65_536;

// A status with the counts of another.
fn counted_as(is: &Status, was: &Status) -> Status
    ensures { result ≡ counted_as is.now was.now }
{
    Status {
        role: is.role,
        law: is.law,
        codec: is.codec,
        payload_type: is.payload_type,
        state: is.state,
        sent: is.sent,
        recognised: is.recognised,
        sent_count: was.sent_count,
        received: was.received,
        dropped: was.dropped,
    }
}

// The status a circuit must have had for nothing to be reported.
fn quiet_at(due: bool, was: &Status, is: &Status) -> Status
    ensures { result ≡ quiet_at due was.now is.now }
{
    if due { *is } else { counted_as(is, was) }
}

// Reports a circuit that has changed, by its counts only when due.
fn report_row(circuit: CircuitNo, due: bool, told: &mut Status, is: &Status, text: &mut Text)
    requires { length text.old.items + 80 ≤ 13500 }
    ensures step { RowStep due circuit told.old is.now told.new text.old.items text.new.items }
    ensures len { length text.new.items ≤ length text.old.items + 80 }
{
    if *told == quiet_at(due, told, is) {
        return;
    }
    push_row(text, circuit, is);
    *told = *is;
}

// Reports the circuits that have changed.
fn report_rows(due: bool, told: &mut [Status; 30], is: &[Status; 30], text: &mut Text)
    requires { length text.old.items + 2400 ≤ 13500 }
    ensures steps { RowSteps due told.old is.now told.new text.old.items text.new.items 30 }
    ensures count { length told.new ≡ length told.old }
    ensures len { length text.new.items ≤ length text.old.items + 2400 }
{
    for number in 1..=30u8 {
        let i = usize::from(number) - 1;
        report_row(circuit(number), due, &mut told[i], &is[i], text);
    }
}

// Reports the alarms if they changed.
fn report_alarms(told: &mut Alarms, is: &Alarms, text: &mut Text)
    requires { length text.old.items + 91 ≤ 13500 }
    ensures step { AlarmsStep told.old is.now text.old.items text.new.items }
    ensures told { told.new ≡ is.now }
    ensures len { length text.new.items ≤ length text.old.items + 91 }
{
    if *told != *is {
        push_alarms(text, is);
        *told = *is;
    }
}

// Adds the line of a circuit's counts, if all are told or these are new.
fn push_if_told(text: &mut Text, all: bool, circuit: CircuitNo, counts: &DatagramCounts)
    requires { length text.old.items + 343 ≤ 13500 }
    ensures line { text.new.items ≡ text.old.items ++ told_line all circuit counts.now }
    ensures len { length text.new.items ≤ length text.old.items + 343 }
{
    if all || counts.is_new {
        push_counts(text, circuit, counts);
    }
}

// Adds the lines of the counts of all circuits, or of those that are new.
fn push_all_counts(text: &mut Text, all: bool, counts: &[DatagramCounts; 30])
    requires { length text.old.items + 10290 ≤ 13500 }
    ensures lines { text.new.items ≡ text.old.items ++ counts_lines all counts.now 30 }
    ensures len { length text.new.items ≤ length text.old.items + 10290 }
{
    for number in 1..=30u8 {
        push_if_told(text, all, circuit(number), &counts[usize::from(number) - 1]);
    }
}

// Tells the counts that are new, if they are due.
fn report_counts(due: bool, counts: &mut [DatagramCounts; 30], text: &mut Text)
    requires { length text.old.items + 10290 ≤ 13500 }
    ensures lines { text.new.items ≡ text.old.items ++ due_lines due counts.old }
    ensures told { (c : ℕ) → 1 ≤ c → c ≤ 30
        → counts_at counts.new c ≡ told_at due (counts_at counts.old c) }
{
    if due {
        push_all_counts(text, false, counts);
        set_told(counts);
    }
}

/// The place behind a record.
pub fn place_after(place: u64, head: &RecordHead, body: &[u8]) -> u64
    ensures { result ≡ place_after place (named head.now body.now) }
{
    match head {
        RecordHead::Trunk => place.saturating_add(body.len() as u64),
        _ => place,
    }
}

/// Whether counts are due behind a record of the trunk that began at one place and ended at another.
pub fn are_due(before: u64, after: u64) -> bool
    ensures { result ≡ are_due before after }
{
    before / COUNTS_EVERY < after / COUNTS_EVERY
}

/// Puts the lines of what has changed behind a text. `is` is the state of the trunk, `told` what was reported
/// last, and `counts` those of the datagrams, which are told if they are due.
#[inline(never)]
pub fn report(
    due: bool,
    told: &mut GatewayStatus,
    is: &GatewayStatus,
    counts: &mut [DatagramCounts; 30],
    text: &mut Text,
)
    requires { length text.old.items ≤ 138 }
    ensures changes { Changes due told.old is.now told.new counts.old counts.new text.old.items
        text.new.items }
    ensures true_picture { IsStatusOf is.now told.new }
{
    report_alarms(&mut told.alarms, &is.alarms, text);
    report_rows(due, &mut told.rows, &is.rows, text);
    report_counts(due, counts, text);
}

// Adds the lines of all circuits.
fn push_rows(text: &mut Text, rows: &[Status; 30])
    requires { length text.old.items + 2400 ≤ 13500 }
    ensures lines { text.new.items ≡ text.old.items ++ row_lines rows.now 30 }
    ensures len { length text.new.items ≡ length text.old.items + 2400 }
{
    for number in 1..=30u8 {
        push_row(text, circuit(number), &rows[usize::from(number) - 1]);
    }
}

/// Puts the whole state into the text, which a new client gets.
#[inline(never)]
pub fn whole_state(
    law: Law,
    place: u64,
    gateway_status: &GatewayStatus,
    counts: &[DatagramCounts; 30],
    seized: &[u64; 30],
    text: &mut Text,
)
    requires { text.old.items ≡ [] }
    ensures { text.new.items ≡ whole_state law place gateway_status.now counts.now seized.now }
{
    push(text, hello_line(law));
    push_at(text, place);
    push_alarms(text, &gateway_status.alarms);
    push_rows(text, &gateway_status.rows);
    push_all_counts(text, true, counts);
    push_seizures(text, seized);
    push(text, b"now\n");
}
