//! What stands between the device of a trunk and its session: slots 1 to 31 made whole, alignment, and CRC-4.
#![tactic(auto)]

mod begun;
mod dropping;
mod filters;
mod incoming;
mod outgoing;
mod phased;
mod pieces;
mod receiving;
mod reports;
mod slots;
mod switches;

pub use dropping::SlotDropper;
pub use filters::{
    Checker, Crc4, Framed, Incoming, Outgoing, Sender, TrunkFilters, checker_from, filtered_input,
    filters_as_asked, finish_input, finish_output, framed_output, parted, slot_input,
};
pub use incoming::FilteredInput;
pub use outgoing::FilteredOutput;
pub use phased::PhasedFilter;
pub use pieces::PieceFilter;
pub use reports::{ReportsIn, ReportsOut};
pub use slots::SlotInput;
pub use switches::SwitchedFilter;
