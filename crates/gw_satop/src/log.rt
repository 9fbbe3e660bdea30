//! What happened to an emulated circuit, for proofs. Nothing of it exists at run time.

ghost use Rattle.std.specs.Prelude.{◌≡◌, ℕ, Bool, true, false, List, [], ◌∷◌, ◌++◌, take};
ghost use Rattle.std.specs.Borrow.{ftrue};
ghost use Rattle.gw_satop.specs.Log.{datagrams_of, flags_of};

use std::marker::Model;

// The kinds of entries.
const DATAGRAM: u8 = 0;

const FLAG_CLEAR: u8 = 1;

const FLAG_SET: u8 = 2;

/// Datagrams and the flags of packets, each in order.
///
/// It takes no memory, and its functions do nothing.
#[derive(Drop)]
pub struct History {
    pub ghost datagrams: { List (List ℕ) },
    pub ghost flags: { List Bool },
}

impl Model for History {
    ghost also_owns = { λ _. ftrue };
}

impl History {
    /// The history before any datagram and packet.
    pub fn new() -> History
        ensures { result ≡ record { datagrams = []; flags = [] } }
    {
        History {}
    }

    // Appends the entry of this kind, with the first `_len` of these octets.
    fn add(&mut self, _kind: u8, _octets: &[u8], _len: usize)
        ensures { self.new ≡ record {
          datagrams = self.old.datagrams ++ datagrams_of _kind (take _len _octets.now);
          flags = self.old.flags ++ flags_of _kind;
        } }
    {}

    /// Appends the datagram that is the first `len` of these octets.
    pub fn datagram(&mut self, octets: &[u8], len: usize)
        ensures { self.new ≡ record self.old {
          datagrams = self.old.datagrams ++ take len octets.now ∷ [];
        } }
    {
        self.add(DATAGRAM, octets, len);
    }

    /// Appends the flag of a packet.
    pub fn flag(&mut self, flag: bool)
        ensures { self.new ≡ record self.old { flags = self.old.flags ++ flag ∷ [] } }
    {
        if flag {
            self.add(FLAG_SET, &[], 0);
        } else {
            self.add(FLAG_CLEAR, &[], 0);
        }
    }
}
