//! The memory in which a session receives a datagram (`ReceiveRoom`).
ghost use Rattle.std.specs.Prelude.{◌≡◌, length};

use std::alloc::{AllocError, Global};

// The octets that any datagram has place in.
const ROOM_LEN: usize = 65_536;

/// Room for a datagram, which is taken once.
#[derive(Drop)]
pub struct ReceiveRoom {
    pub(crate) octets: Box<[u8; ROOM_LEN]>,
    ghost len: { length octets.value ≡ 65536 },
}

impl ReceiveRoom {
    /// Takes the memory.
    #[inline(never)]
    pub fn new(alloc: Global) -> Result<ReceiveRoom, AllocError> {
        Ok(ReceiveRoom {
            octets: Box::new(alloc, [0; ROOM_LEN])?,
        })
    }
}
