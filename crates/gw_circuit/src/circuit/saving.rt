//! A circuit's line, speech and counts saved as octets, and loaded from them.

ghost use Rattle.std.specs.Prelude.{◌≡◌, ◌<◌, ◌^◌, ◌++◌, [], ℕ, List, OnOk, IfSome, IfNone, Some, true};
ghost use Rattle.std.specs.Prelude.{false};
ghost use Rattle.e1_g711.specs.declared.Law.{Law};
ghost use Rattle.q421_line.specs.declared.signalling.Line.{Line};
ghost use Rattle.q421_line.specs.Line as line;
ghost use Rattle.q421_line.specs.Saved.{saved_line, LineFits};
ghost use Rattle.gw_circuit.specs.declared.config.CircuitConfig.{CircuitConfig};
ghost use Rattle.gw_circuit.specs.declared.circuit.Circuit.{Circuit};
ghost use Rattle.gw_circuit.specs.Items.{CircuitEvent};
ghost use Rattle.gw_circuit.specs.Saved.{saved_circuit, saved_clocks, saved_counts, saved_numbers};
ghost use Rattle.gw_circuit.specs.Saved.{NumbersFit, CircuitFits};
ghost use Rattle.gw_circuit.specs.Standing.{HasHistory};

use crate::circuit::Circuit;
use q421_line::{Line, Role};
use saved_octets::{OctetReader, append_u16, append_u32};
use std::alloc::AllocError;

// The sample clock, and the sequence number of the next datagram.
#[derive(Drop)]
struct Clocks {
    clock: u32,
    sequence: u16,
}

// The datagrams that were sent, received and dropped.
#[derive(Drop)]
struct Counts {
    sent: u32,
    received: u32,
    dropped: u32,
}

// The numbers of a circuit.
#[derive(Drop)]
struct Numbers {
    clocks: Clocks,
    counts: Counts,
}

impl Circuit {
    /// Appends the octets of the circuit.
    pub fn save(&self, out: &mut Vec<u8>) -> Result<(), AllocError>
        ensures octets { OnOk result (out.new.items ≡ out.old.items ++ saved_circuit self.now) }
        ensures fits { OnOk result (CircuitFits self.now) }
    {
        self.save_numbers(out)?;
        self.line.save(out)?;
        self.speech.save(out)
    }

    fn save_numbers(&self, out: &mut Vec<u8>) -> Result<(), AllocError>
        ensures octets { OnOk result (out.new.items ≡ out.old.items ++ saved_numbers self.now) }
        ensures fits { OnOk result (NumbersFit self.now) }
    {
        save_clocks(self.clock, self.sequence, out)?;
        save_counts(self.sent_count, self.received, self.dropped, out)
    }

    /// Puts the circuit back to what it was before its first item. It takes no memory.
    pub fn clear(&mut self)
        ensures stands { (law : Law) (config : CircuitConfig) (items : List CircuitEvent)
            → HasHistory self.old law config items → HasHistory self.new law config [] }
        ensures config { (self.new.law ≡ self.old.law) × (self.new.config ≡ self.old.config) }
    {
        self.speech
            .change(self.law, self.config.codec, self.config.payload_type);
        self.line = Line::new(self.config.role);
        self.clock = 0;
        self.sequence = self.first_sequence();
        self.sent_count = 0;
        self.received = 0;
        self.dropped = 0;
    }

    fn first_sequence(&self) -> u16
        ensures value { result ≡ self.now.config.sequence }
        ensures fits { result < 2 ^ 16 }
    {
        self.config.sequence
    }

    /// Reads a saved circuit into this one, which keeps its law and its configuration. None if the octets are
    /// not those of a circuit; then it is as it was before its first item. It takes no memory.
    pub fn load(&mut self, octets: &mut OctetReader<'_>) -> Option<()>
        ensures loaded { (other : Circuit) (law : Law) (config : CircuitConfig)
            (items before : List CircuitEvent)
            (rest : List ℕ) → HasHistory other law config items → CircuitFits other
            → HasHistory self.old law config before → octets.old ≡ saved_circuit other ++ rest
            → (result ≡ Some tt) × (self.new ≡ other) × (octets.new ≡ rest) }
        ensures read { IfSome result (λ done. octets.old ≡ saved_circuit self.new ++ octets.new) }
        ensures none { (law : Law) (config : CircuitConfig) (items : List CircuitEvent)
            → HasHistory self.old law config items → IfNone result (HasHistory self.new law config []) }
        ensures config { (self.new.law ≡ self.old.law) × (self.new.config ≡ self.old.config) }
    {
        self.clear();
        let numbers = load_numbers(octets)?;
        self.load_line(octets)?;
        if self.speech.load(self.law, octets).is_none() {
            self.line = Line::new(self.config.role);
            return None;
        }
        self.clock = numbers.clocks.clock;
        self.sequence = numbers.clocks.sequence;
        self.sent_count = numbers.counts.sent;
        self.received = numbers.counts.received;
        self.dropped = numbers.counts.dropped;
        Some(())
    }

    // Reads a saved line into this circuit; None if the octets are not those of a line, whose line is then
    // new.
    fn load_line(&mut self, octets: &mut OctetReader<'_>) -> Option<()>
        ensures loaded { (line : Line) (rest : List ℕ) → line.role ≡ self.old.config.role
            → LineFits line → octets.old ≡ saved_line line ++ rest
            → (result ≡ Some tt) × (self.new.line ≡ line) × (octets.new ≡ rest) }
        ensures read { IfSome result (λ done. octets.old ≡ saved_line self.new.line ++ octets.new) }
        ensures rest { self.new ≡ record self.old { line = self.new.line } }
        ensures none { IfNone result (line.HasHistory self.new.line self.old.config.role []) }
    {
        let (line, loaded) = load_line(self.config.role, octets);
        self.line = line;
        if loaded { Some(()) } else { None }
    }
}

// A saved line, and that it is one; else a new line.
fn load_line(role: Role, octets: &mut OctetReader<'_>) -> (Line, bool)
    ensures loaded { (line : Line) (rest : List ℕ) → line.role ≡ role → LineFits line
        → octets.old ≡ saved_line line ++ rest
        → (result.0 ≡ line) × (result.1 ≡ true) × (octets.new ≡ rest) }
    ensures read { result.1 ≡ true → octets.old ≡ saved_line result.0 ++ octets.new }
    ensures none { result.1 ≡ false → line.HasHistory result.0 role [] }
{
    match Line::load(role, octets) {
        Some(line) => (line, true),
        None => (Line::new(role), false),
    }
}

fn save_clocks(clock: u32, sequence: u16, out: &mut Vec<u8>) -> Result<(), AllocError>
    ensures octets { OnOk result (out.new.items ≡ out.old.items ++ saved_clocks clock sequence) }
    ensures fits { (clock < 2 ^ 32) × (sequence < 2 ^ 16) }
{
    append_u32(out, clock)?;
    append_u16(out, sequence)
}

fn save_counts(sent: u32, received: u32, dropped: u32, out: &mut Vec<u8>) -> Result<(), AllocError>
    ensures octets { OnOk result (out.new.items ≡ out.old.items ++ saved_counts sent received dropped) }
    ensures fits { (sent < 2 ^ 32) × (received < 2 ^ 32) × (dropped < 2 ^ 32) }
{
    append_u32(out, sent)?;
    append_u32(out, received)?;
    append_u32(out, dropped)
}

fn load_clocks(octets: &mut OctetReader<'_>) -> Option<Clocks>
    ensures loaded { (clock sequence : ℕ) (rest : List ℕ) → clock < 2 ^ 32 → sequence < 2 ^ 16
        → octets.old ≡ saved_clocks clock sequence ++ rest
        → (result ≡ Some (record { clock = clock; sequence = sequence })) × (octets.new ≡ rest) }
    ensures read { IfSome result (λ c. octets.old ≡ saved_clocks c.clock c.sequence ++ octets.new) }
{
    let clock = octets.read_u32()?;
    let sequence = octets.read_u16()?;
    Some(Clocks { clock, sequence })
}

fn load_counts(octets: &mut OctetReader<'_>) -> Option<Counts>
    ensures loaded { (sent received dropped : ℕ) (rest : List ℕ) → sent < 2 ^ 32 → received < 2 ^ 32
        → dropped < 2 ^ 32 → octets.old ≡ saved_counts sent received dropped ++ rest
        → (result ≡ Some (record { sent = sent; received = received; dropped = dropped }))
        × (octets.new ≡ rest) }
    ensures read { IfSome result (λ c. octets.old ≡ saved_counts c.sent c.received c.dropped ++ octets.new) }
{
    let sent = octets.read_u32()?;
    let received = octets.read_u32()?;
    let dropped = octets.read_u32()?;
    Some(Counts {
        sent,
        received,
        dropped,
    })
}

fn load_numbers(octets: &mut OctetReader<'_>) -> Option<Numbers>
    ensures loaded { (c : Circuit) (rest : List ℕ) → NumbersFit c → octets.old ≡ saved_numbers c ++ rest
        → (result ≡ Some (record {
          clocks = record { clock = c.clock; sequence = c.sequence };
          counts = record { sent = c.sent_count; received = c.received; dropped = c.dropped };
        })) × (octets.new ≡ rest) }
    ensures read { IfSome result (λ n. octets.old ≡ (saved_clocks n.clocks.clock n.clocks.sequence
        ++ saved_counts n.counts.sent n.counts.received n.counts.dropped) ++ octets.new) }
{
    let clocks = load_clocks(octets)?;
    let counts = load_counts(octets)?;
    Some(Numbers { clocks, counts })
}
