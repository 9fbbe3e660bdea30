//! Where what answers records goes if nobody wants it (`Nowhere`).

ghost use Rattle.std.specs.Prelude.{None};

use gw_records::{Sink, SinkFault};

/// Takes all octets and keeps none, so that no write fails.
#[derive(Drop)]
pub struct Nowhere;

impl Sink for Nowhere {
    ghost tells = { λ s. record { failures = 0; taken = None } };

    fn write(&mut self, octets: &[u8]) -> Result<usize, SinkFault> {
        Ok(octets.len())
    }
}
