//! What passes the filters that the command line asks for, at both ends of a trunk (`TrunkFilters`).

ghost use Rattle.std.specs.Prelude.{◌≡◌, ◌%◌, [], IfOk, IfSome, is_some, option_map};
ghost use Rattle.g704_bits.specs.Standing.{StandsAfter};
ghost use Rattle.gw_filter.specs.Check.{HasReported};
ghost use Rattle.trunk_filters.specs.Trunk.{AreFresh, AreUnused, Comes, Goes, GoesFramed, both_ended};

use crate::dropping::SlotDropper;
use crate::incoming::FilteredInput;
use crate::outgoing::FilteredOutput;
use crate::phased::PhasedFilter;
use crate::reports::{ReportsIn, ReportsOut, open_reports};
use crate::slots::SlotInput;
use crate::switches::SwitchedFilter;
use e1_g711::Law;
use g704_bits::BitAligner;
use gw_command::FilterOptions;
use gw_filter::{
    BufferFilter, Checked, CountsTeller, ReceiverCounts, ReportingChecker, ReportingSender,
};
use gw_records::NO_TOTALS;
use gw_report::{ProgramFault, print_live};
use gw_switch::Gateway;
use gw_trunk::{DeviceFault, MultiframeDropper, TrunkInput, TrunkOutput};
use std::alloc::Global;
use std::rt::Stderr;

/// Checks the CRC-4 multiframes of what comes, and reports errored ones to the sender.
pub type Checker = ReportingChecker<ReportsOut, PrintedCounts>;

/// Puts CRC-4 multiframes into what goes, from a place in a multiframe on.
pub type Sender = PhasedFilter<ReportingSender<ReportsIn>>;

/// Prints the counts of a checker on standard error, if that is asked for.
#[derive(Drop)]
pub struct PrintedCounts {
    errors: Stderr,
    is_live: bool,
}

impl CountsTeller for PrintedCounts {
    ghost use Rattle.std.specs.Prelude.{⊤};

    ghost has_told = { λ _ _. ⊤ };

    fn tell(&mut self, counts: &ReceiverCounts) {
        if self.is_live {
            print_live(&self.errors, counts);
        }
    }
}

/// What comes of a trunk, with all slots, aligned and then checked.
pub type Incoming<I> = FilteredInput<
    FilteredInput<SlotInput<I>, SwitchedFilter<BitAligner>>,
    SwitchedFilter<Checker>,
>;

/// Where what is sent goes, with CRC-4 and then without slot 0.
pub type Framed<O> = FilteredOutput<FilteredOutput<O, SlotDropper>, SwitchedFilter<Sender>>;

/// Where what is sent goes, by multiframes first.
pub type Outgoing<O> = MultiframeDropper<Framed<O>, Stderr>;

/// Where the reports of a checker go, and what they come from for the sender.
#[derive(Drop)]
pub struct Crc4 {
    pub outward: ReportsOut,
    pub reports: ReportsIn,
}

/// The filters of a trunk that are asked for, through which nothing has passed.
#[derive(Drop)]
pub struct TrunkFilters {
    /// Whether the device has slots 1 to 31 alone.
    pub slots: bool,
    /// Whether the counts of CRC-4 multiframes are printed.
    pub live: bool,
    pub aligner: Option<BitAligner>,
    pub crc4: Option<Crc4>,
}

// The aligner of what comes, if it is asked for.
fn aligner_if(is_asked: bool) -> Option<BitAligner>
    ensures { IfSome result (λ aligner. StandsAfter aligner []) }
{
    if is_asked {
        return Some(BitAligner::new());
    }
    None
}

// Where reports go and come from, if CRC-4 is asked for. The error is that memory was refused.
fn crc4_if(alloc: Global, is_asked: bool) -> Result<Option<Crc4>, ProgramFault>
    ensures { IfOk result (λ c. IfSome c AreUnused) }
{
    if !is_asked {
        return Ok(None);
    }
    match open_reports(alloc) {
        Ok((outward, reports)) => Ok(Some(Crc4 { outward, reports })),
        Err(_) => Err(ProgramFault::OutOfMemory),
    }
}

/// The filters that the options ask for.
pub fn filters_as_asked(alloc: Global, options: FilterOptions) -> Result<TrunkFilters, ProgramFault>
    ensures { IfOk result AreFresh }
{
    match crc4_if(alloc, options.crc4) {
        Ok(crc4) => Ok(TrunkFilters {
            slots: options.slots,
            live: options.live,
            aligner: aligner_if(options.align),
            crc4,
        }),
        Err(fault) => Err(fault),
    }
}

/// Where reports go and where they come from, if they do.
pub fn parted(crc4: Option<Crc4>) -> (Option<ReportsOut>, Option<ReportsIn>)
    ensures outward { result.0 ≡ option_map (λ c. c.outward) crc4 }
    ensures reports { result.1 ≡ option_map (λ c. c.reports) crc4 }
{
    match crc4 {
        Some(Crc4 { outward, reports }) => (Some(outward), Some(reports)),
        None => (None, None),
    }
}

/// The checker of what comes, if its reports go anywhere.
pub fn checker_from(errors: Stderr, is_live: bool, outward: Option<ReportsOut>) -> Option<Checker>
    requires { IfSome outward (λ o. o.log.octets ≡ []) }
    ensures is { is_some result ≡ is_some outward }
    ensures begins { IfSome result (λ c. HasReported c.checker c.reported c.reports.log.octets [] []) }
{
    match outward {
        Some(outward) => {
            let teller = PrintedCounts { errors, is_live };
            Some(ReportingChecker::new(outward, teller))
        }
        None => None,
    }
}

/// What comes of a trunk of this law with all slots, from the gateway's place in a multiframe on.
pub fn slot_input<I: TrunkInput>(
    errors: Stderr,
    incoming: I,
    slots: bool,
    law: Law,
    gateway: &Gateway,
) -> SlotInput<I>
    requires { I.came incoming ≡ [] }
    ensures incoming { result.incoming ≡ incoming }
    ensures slots { is_some result.slots ≡ slots }
    ensures law { result.law.value ≡ law }
    ensures place { result.place.value ≡ gateway.now.trunk.position % 512 }
    ensures log { result.log.octets ≡ [] }
{
    SlotInput::new(incoming, slots, law, gateway.place(), errors)
}

/// What comes of a trunk with all slots, as these filters return it.
pub fn filtered_input<I: TrunkInput>(
    incoming: SlotInput<I>,
    aligner: Option<BitAligner>,
    checker: Option<Checker>,
) -> Incoming<I>
    requires came { incoming.log.octets ≡ [] }
    requires aligner { IfSome aligner (λ a. StandsAfter a []) }
    requires checker { IfSome checker (λ c. HasReported c.checker c.reported c.reports.log.octets [] []) }
    ensures came { result.log.octets ≡ [] }
    ensures incoming { result.incoming.incoming ≡ incoming }
    ensures aligned { result.incoming.filter.filter ≡ aligner }
    ensures checked { result.filter.filter ≡ checker }
{
    let aligned = FilteredInput::new(incoming, SwitchedFilter::new(aligner));
    FilteredInput::new(aligned, SwitchedFilter::new(checker))
}

// The sender of what goes, from the gateway's place in a multiframe on.
fn sender_from(reports: Option<ReportsIn>, gateway: &Gateway) -> Option<Sender>
    requires { IfSome reports (λ r. r.log.octets ≡ []) }
    ensures is { is_some result ≡ is_some reports }
    ensures place { IfSome result (λ s. s.place.value ≡ gateway.now.trunk.position % 512) }
    ensures begins { IfSome result (λ s. ⟦<Sender as BufferFilter>⟧.has_returned s [] []) }
{
    match reports {
        Some(reports) => {
            let sender = ReportingSender::new(reports);
            Some(PhasedFilter::new(sender, usize::from(gateway.place())))
        }
        None => None,
    }
}

/// Where what is sent goes, with CRC-4 from the gateway's place on if there are reports, and without slot 0
/// if the device has none.
pub fn framed_output<O: TrunkOutput>(
    outgoing: O,
    slots: bool,
    reports: Option<ReportsIn>,
    gateway: &Gateway,
) -> Framed<O>
    requires went { O.went outgoing ≡ [] }
    requires unread { IfSome reports (λ r. r.log.octets ≡ []) }
    ensures went { result.log.octets ≡ [] }
    ensures crc4 { is_some result.filter.filter ≡ is_some reports }
    ensures place { IfSome result.filter.filter (λ s.
        s.place.value ≡ gateway.now.trunk.position % 512) }
    ensures slots { is_some result.outgoing.filter.frame ≡ slots }
    ensures slots_place { result.outgoing.filter.place.value ≡ gateway.now.trunk.position % 512 }
{
    let sender = sender_from(reports, gateway);
    let frames = FilteredOutput::new(outgoing, SlotDropper::new(slots, gateway.place()));
    FilteredOutput::new(frames, SwitchedFilter::new(sender))
}

// How two writers ended, one behind the other: whether both took all.
fn both_ended(
    all: Result<bool, DeviceFault>,
    rest: Result<bool, DeviceFault>,
) -> Result<bool, DeviceFault>
    ensures { result ≡ both_ended all rest }
{
    match (all, rest) {
        (Ok(all), Ok(rest)) => Ok(all && rest),
        (Ok(_), Err(fault)) => Err(fault),
        (Err(fault), _) => Err(fault),
    }
}

// Gives the device what is still held for it, first with slot 0 and then without, and returns whether it took
// all.
fn finish_framed<O: TrunkOutput + Drop>(framed: Framed<O>) -> Result<bool, DeviceFault>
    ensures { ∥ GoesFramed framed.log.octets (O.slow_waits framed.outgoing.outgoing) result ∥₁ }
{
    let mut framed = framed;
    let all = framed.finish();
    let mut frames = framed.into_outgoing();
    let rest = frames.finish();
    both_ended(all, rest)
}

/// Gives the device what is still held for it, and returns how many multiframes were discarded, and whether
/// the device took all in the end.
pub fn finish_output<O: TrunkOutput + Drop>(
    outgoing: Outgoing<O>,
) -> (u64, Result<bool, DeviceFault>)
    ensures { ∥ Goes outgoing.log.octets result.0 result.1 ∥₁ }
{
    let mut dropper = outgoing;
    dropper.finish();
    let discarded = dropper.discarded();
    (discarded, finish_framed(dropper.into_outgoing()))
}

// A law: what came of a trunk is what its filters, in their order, made of what the device gave.
fn comes<I: TrunkInput>(incoming: &Incoming<I>)
    ensures { ∥ Comes (is_some incoming.now.incoming.incoming.slots)
        (is_some incoming.now.incoming.filter.filter) (is_some incoming.now.filter.filter)
        incoming.now.incoming.incoming.law.value incoming.now.incoming.incoming.place.value
        (I.came incoming.now.incoming.incoming.incoming) incoming.now.log.octets ∥₁ }
{
    let _incoming = incoming;
}

/// What was counted of what came, if it was checked. It is printed as a line if that is asked for.
pub fn finish_input<I: TrunkInput + Drop>(incoming: Incoming<I>) -> Option<Checked> {
    comes(&incoming);
    let mut checker = incoming.into_filter().into_filter()?;
    checker.tell_now();
    Some(checker.checked(NO_TOTALS))
}
