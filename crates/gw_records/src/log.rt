//! Octets that passed and calls of ports, for proofs. Nothing of it exists at run time.
ghost use Rattle.std.specs.Prelude.{◌≡◌, ◌+◌, ℕ, List, [], ◌∷◌, ◌++◌, take};
ghost use Rattle.std.specs.Borrow.{ftrue};
ghost use Rattle.gw_records.specs.Ports.{PortCall, calls_of, receive_call, send_call};
ghost use Rattle.gw_records.specs.Records.{named, logged, spelled, trunk_record};

use crate::octets::{octet_of_codec, octet_of_command};
use crate::ports::PortFault;
use crate::records::{CODEC, COMMAND, DATAGRAM, RecordHead, TRUNK};
use g704_cas::CircuitNo;
use std::marker::{Model, PhantomData};

// The kinds of calls, in the order of their definition.
const GAVE: u8 = 0;

const FOUND_NONE: u8 = 1;

const RECEIVE_FAILED: u8 = 2;

const TOOK: u8 = 3;

const SEND_FAILED: u8 = 4;

// Octets that passed without a call.
const NO_CALL: u8 = 5;

/// Octets that passed, and the calls of ports that passed some of them.
///
/// It takes no memory, and its functions do nothing.
#[derive(Drop)]
pub struct Log {
    pub ghost octets: { List ℕ },
    pub ghost calls: { List PortCall },
}

impl Model for Log {
    ghost also_owns = { λ _. ftrue };
}

impl Log {
    /// The log before any octet and call.
    pub fn new() -> Log
        ensures { result ≡ record { octets = []; calls = [] } }
    {
        Log {}
    }

    // Appends the first `_len` of these octets, and the call of this kind for a circuit; or the record of
    // this kind whose body they are, up to these.
    fn add(&mut self, _kind: u8, _circuit: u8, _octets: &[u8], _len: usize)
        ensures { self.new ≡ record {
          octets = self.old.octets ++ logged _kind _circuit _octets.now _len;
          calls = self.old.calls ++ calls_of _kind _circuit (take _len _octets.now);
        } }
    {}

    /// Appends the first `len` of these octets without a call.
    #[inline]
    pub fn append(&mut self, octets: &[u8], len: usize)
        ensures { self.new.octets ≡ self.old.octets ++ take len octets.now }
    {
        self.add(NO_CALL, 0, octets, len);
    }

    /// Appends a record.
    #[inline]
    pub fn append_record(&mut self, head: &RecordHead, body: &[u8])
        ensures { self.new.octets ≡ self.old.octets ++ spelled (named head.now body.now) }
    {
        match head {
            RecordHead::Trunk => self.add(TRUNK, 0, body, body.len()),
            RecordHead::Datagram(circuit) => self.add(DATAGRAM, circuit.get(), body, body.len()),
            RecordHead::Command(circuit, command) => {
                self.add(COMMAND, circuit.get(), &[octet_of_command(*command)], 1);
            }
            RecordHead::Codec(circuit, codec, payload_type) => {
                self.add(
                    CODEC,
                    circuit.get(),
                    &[octet_of_codec(*codec), *payload_type],
                    2,
                );
            }
        }
    }

    /// Appends a record of the trunk, up to the first `len` octets of its body.
    #[inline]
    pub fn append_trunk(&mut self, body: &[u8], len: usize)
        ensures { self.new.octets ≡ self.old.octets ++ take (4 + len) (trunk_record body.now) }
    {
        self.add(TRUNK, 0, body, len);
    }

    /// Appends a receive for a circuit, by its result and the room afterwards.
    #[inline]
    pub fn received(
        &mut self,
        circuit: CircuitNo,
        received: &Result<Option<usize>, PortFault>,
        room: &[u8],
    )
        ensures { self.new.calls ≡ self.old.calls ++ receive_call circuit received.now room.now ∷ [] }
    {
        match received {
            Ok(Some(len)) => self.add(GAVE, circuit.get(), room, *len),
            Ok(None) => self.add(FOUND_NONE, circuit.get(), room, 0),
            Err(_) => self.add(RECEIVE_FAILED, circuit.get(), room, 0),
        }
    }

    /// Appends a send of a circuit, by its result.
    #[inline]
    pub fn sent(&mut self, circuit: CircuitNo, datagram: &[u8], sent: &Result<(), PortFault>)
        ensures { self.new.calls ≡ self.old.calls ++ send_call circuit datagram.now sent.now ∷ [] }
    {
        match sent {
            Ok(()) => self.add(TOOK, circuit.get(), datagram, datagram.len()),
            Err(_) => self.add(SEND_FAILED, circuit.get(), datagram, datagram.len()),
        }
    }
}

/// A value as it was at the start.
///
/// It takes no memory, and its function does nothing.
#[derive(Drop)]
pub struct AtStart<T> {
    of: PhantomData<T>,
    pub ghost value: { T },
}

impl<T> Model for AtStart<T> {
    ghost also_owns = { λ _. ftrue };
}

impl<T> AtStart<T> {
    /// The value as it is at this start.
    pub fn of(_value: &T) -> AtStart<T>
        ensures { result.value ≡ _value.now }
    {
        AtStart { of: PhantomData }
    }
}
