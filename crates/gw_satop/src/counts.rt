//! What an emulated circuit counts: packets lost, late, repeated, filled, malformed (`Counts`).

ghost use Rattle.std.specs.Prelude.{◌≡◌, ◌&&◌, not, true};
ghost use Rattle.gw_satop.specs.Counts.{counts_by_bits, counts_by_fault, counts_by_outcome, counts_by_play};
ghost use Rattle.gw_satop.specs.Counts.{counts_by_refusal, counts_by_sending, more, more_if, no_counts};

use crate::line::DatagramOutcome;
use crate::packet::PacketFault;
use satop_packet::Control;
use satop_playout::ArrivalFault;
use thiserror::Error;

/// The counts of an emulated circuit, each up to the greatest u64. They print as one line.
#[derive(Clone, Copy, Debug, PartialEq, Eq, Error)]
#[error("satop received={received} sent={sent} unsent={unsent} lost={lost} filled={filled} late={late} \
     repeated={repeated} too_far={too_far} restarts={restarts} silences={silences} ticks={ticks} \
     with_l={with_l} with_r={with_r} \
     malformed_short={short} malformed_no_rtp_header={no_rtp} malformed_no_control_word={no_control} \
     malformed_other_length={other_length} malformed_other_size={other_size}")]
pub struct Counts {
    /// Packets that came.
    pub received: u64,
    /// Packets that the system took.
    pub sent: u64,
    /// Packets that the system did not take.
    pub unsent: u64,
    /// Packets that were missing when a later one was there.
    pub lost: u64,
    /// Packets that were replaced.
    pub filled: u64,
    /// Packets that came after their turn.
    pub late: u64,
    /// Packets that came again.
    pub repeated: u64,
    /// Packets that were too far ahead.
    pub too_far: u64,
    /// Streams that began, but for the first.
    pub restarts: u64,
    /// Silences that began.
    pub silences: u64,
    /// Packets that were played by this machine's clock in silence.
    pub ticks: u64,
    /// Packets that came with bit L: the far attachment circuit has a fault.
    pub with_l: u64,
    /// Packets that came with bit R: packets are missing at the far end.
    pub with_r: u64,
    /// Datagrams shorter than the headers.
    pub short: u64,
    /// Datagrams without an RTP header that is expected.
    pub no_rtp: u64,
    /// Datagrams without a control word.
    pub no_control: u64,
    /// Datagrams with another length.
    pub other_length: u64,
    /// Packets with another size.
    pub other_size: u64,
}

// Adds one to a count of packets, up to the greatest u64.
fn add(count: &mut u64)
    ensures { count.new ≡ more count.old }
{
    *count = count.saturating_add(1);
}

// Adds one to a count if `holds` is set.
fn add_if(holds: bool, count: &mut u64)
    ensures { count.new ≡ more_if holds count.old }
{
    if holds {
        add(count);
    }
}

impl Counts {
    /// The counts before the first datagram, all 0.
    pub fn new() -> Counts
        ensures { result ≡ no_counts }
    {
        Counts {
            received: 0,
            sent: 0,
            unsent: 0,
            lost: 0,
            filled: 0,
            late: 0,
            repeated: 0,
            too_far: 0,
            restarts: 0,
            silences: 0,
            ticks: 0,
            with_l: 0,
            with_r: 0,
            short: 0,
            no_rtp: 0,
            no_control: 0,
            other_length: 0,
            other_size: 0,
        }
    }

    /// Counts a datagram: malformed, accepted, refused, or a stream's first.
    pub fn receive(&mut self, outcome: DatagramOutcome)
        ensures { self.new ≡ counts_by_outcome self.old outcome }
    {
        match outcome {
            DatagramOutcome::PacketFault(fault) => self.refuse(fault),
            DatagramOutcome::Accepted => add(&mut self.received),
            DatagramOutcome::Began(_) => {
                add_if(self.received > 0, &mut self.restarts);
                add(&mut self.received);
            }
            DatagramOutcome::Refused(fault) => self.receive_refused(fault),
        }
    }

    // Counts a refused packet as late, repeated or too far ahead.
    fn receive_refused(&mut self, fault: ArrivalFault)
        ensures { self.new ≡ counts_by_refusal self.old fault }
    {
        add(&mut self.received);
        match fault {
            ArrivalFault::Late => add(&mut self.late),
            ArrivalFault::TooFar => add(&mut self.too_far),
            ArrivalFault::Repeat => add(&mut self.repeated),
            ArrivalFault::OtherSize | ArrivalFault::NotBegun => {}
        }
    }

    // Counts a datagram that is malformed, by its fault.
    fn refuse(&mut self, fault: PacketFault)
        ensures { self.new ≡ counts_by_fault self.old fault }
    {
        match fault {
            PacketFault::Short => add(&mut self.short),
            PacketFault::NoRtp => add(&mut self.no_rtp),
            PacketFault::NoControl => add(&mut self.no_control),
            PacketFault::OtherLength => add(&mut self.other_length),
            PacketFault::OtherSize => add(&mut self.other_size),
        }
    }

    /// Counts bits L and R of a packet, if one came.
    pub fn bits(&mut self, control: Option<Control>)
        ensures { self.new ≡ counts_by_bits self.old control }
    {
        if let Some(control) = control {
            add_if(control.lost, &mut self.with_l);
            add_if(control.remote, &mut self.with_r);
        }
    }

    /// Counts a play: whether the packet was there, whether a later one was, and whether it was silent.
    pub fn play(&mut self, is_there: bool, later: bool, silent: bool)
        ensures { self.new ≡ counts_by_play self.old is_there later silent }
    {
        add_if(!is_there, &mut self.filled);
        add_if(!is_there && later, &mut self.lost);
        add_if(silent, &mut self.ticks);
    }

    /// Counts a packet that the system was given, and took or not.
    pub fn send(&mut self, taken: bool)
        ensures { self.new ≡ counts_by_sending self.old taken }
    {
        add_if(taken, &mut self.sent);
        add_if(!taken, &mut self.unsent);
    }

    /// Counts a silence, if one begins.
    pub fn listen(&mut self, begins: bool)
        ensures { self.new ≡ record self.old { silences = more_if begins self.old.silences } }
    {
        add_if(begins, &mut self.silences);
    }
}
