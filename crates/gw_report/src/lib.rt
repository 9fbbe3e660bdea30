//! What the program reports on standard error: why it failed, and what it counted.
#![tactic(auto)]

mod program_fault;
mod report;

pub use program_fault::{DONE, ProgramFault, REFUSED, reason_at};
pub use report::{
    LiveCounts, print_checked, print_discarded, print_live, print_result, print_skipped,
};
