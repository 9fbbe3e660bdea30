//! Filters of a trunk: one octet to the sink for each octet of the source.
#![tactic(auto)]

mod checking;
mod filters;
mod reports;
mod sending;
mod through;

pub use checking::{Checked, ReportingChecker, crc4_check_stream};
pub use filters::{align_all, align_stream};
pub use g704_crc4::ReceiverCounts;
pub use reports::{CountsTeller, NoReports, ReportSink, ToReports};
pub use sending::{ReportingSender, crc4_stream};
pub use through::{BufferFilter, octets_through};
