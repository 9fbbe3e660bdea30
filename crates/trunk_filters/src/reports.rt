//! How the errored submultiframes that the checker of a trunk finds reach its sender (`open_reports`).

ghost use Rattle.std.specs.Prelude.{◌≡◌, [], IfOk, None, Some};

use gw_filter::ReportSink;
use gw_records::{Log, Source, SourceFault};
use std::alloc::{AllocError, Global};
use std::cell::Cell;
use std::rc::Rc;

/// Where a checker leaves a number of errored submultiframes for a sender. One that is not taken yet stays,
/// and the next one is refused.
#[derive(Drop)]
pub struct ReportsOut {
    waits: Rc<Cell<u8>>,
    pub log: Log,
}

/// Where the sender takes it.
#[derive(Drop)]
pub struct ReportsIn {
    waits: Rc<Cell<u8>>,
    reads: u64,
    failures: u64,
    pub log: Log,
}

/// Where reports go and where they come from, with none on the way. The error is that memory was refused.
pub fn open_reports(alloc: Global) -> Result<(ReportsOut, ReportsIn), AllocError>
    ensures { IfOk result (λ both. (both.0.log.octets ≡ []) × (both.1.log.octets ≡ [])) }
{
    let waits = Rc::new(alloc, Cell::new(0u8))?;
    let outward = ReportsOut {
        waits: waits.clone()?,
        log: Log::new(),
    };
    let reports = ReportsIn {
        waits,
        reads: 0,
        failures: 0,
        log: Log::new(),
    };
    Ok((outward, reports))
}

impl ReportSink for ReportsOut {
    ghost sent = { λ r. r.log.octets };

    fn send(&mut self, count: u8) -> bool {
        if self.waits.get() != 0 {
            return false;
        }
        self.waits.set(count);
        self.log.append(&[count], 1);
        true
    }
}

impl Source for ReportsIn {
    ghost tells = { λ r. record {
      failures = r.failures;
      reads = r.reads;
      given = Some r.log.octets;
      to_come = None;
    } };

    fn read(&mut self, room: &mut [u8]) -> Result<usize, SourceFault> {
        if room.is_empty() || self.waits.get() == 0 {
            self.failures = self.failures.saturating_add(1);
            return Err(SourceFault);
        }
        room[0] = self.waits.get();
        self.waits.set(0);
        self.log.append(room, 1);
        self.reads = self.reads.saturating_add(1);
        Ok(1)
    }
}
