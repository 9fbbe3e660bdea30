//! The trunk of `satop` on standard input, read only if the system reports octets (`WhenReady`).

ghost use Rattle.std.specs.Prelude.{◌≡◌, [], length, IfOk};

use gw_records::{Log, RecordHead};
use gw_trunk::{DeviceFault, DeviceRead, FromDevice, TrunkInput, Waiting};
use mio::Interest;
use std::io::{self, Read};
use std::net::Net;
use std::time::Duration;

/// Octets of a trunk from a descriptor, which is read only if the system says that something has come; so a
/// read that would wait keeps no packet waiting. It has no clients.
#[derive(Drop)]
pub struct WhenReady<I: TrunkInput> {
    incoming: I,
    waiting: Waiting,
    // An octet for each wait.
    waits: Log,
}

/// A trunk's input from a reader, only when its descriptor is ready. The error is the system's.
pub fn open_input<R: Read + Drop>(
    rt: &(impl Net + AllocGlobal),
    reader: R,
    descriptor: i32,
) -> io::Result<WhenReady<FromDevice<R>>>
    ensures { IfOk result (λ r. r.incoming.reader.log.octets ≡ []) }
{
    Ok(WhenReady {
        incoming: FromDevice::open(rt, reader, descriptor)?,
        waiting: Waiting::open(rt, descriptor, Interest::READABLE)?,
        waits: Log::new(),
    })
}

impl<I: TrunkInput> TrunkInput for WhenReady<I> {
    ghost came = { λ r. I.came r.incoming };

    ghost asked = { λ r. I.asked r.incoming };

    ghost told = { λ r. I.told r.incoming };

    ghost has_ended = { λ r. I.has_ended r.incoming };

    ghost has_failed = { λ r. I.has_failed r.incoming };

    ghost waits = { λ r. length r.waits.octets };

    fn read(&mut self, room: &mut [u8]) -> Result<DeviceRead, DeviceFault> {
        if !self.waiting.wait_for(Duration::ZERO) {
            return Ok(DeviceRead::NoneNow);
        }
        self.incoming.read(room)
    }

    fn command(&mut self) -> Option<RecordHead> {
        None
    }

    fn answer(&mut self, octets: &[u8]) {
        self.incoming.answer(octets);
    }

    fn wait(&mut self) {
        self.waits.append(&[0], 1);
        self.waiting.wait();
    }
}
