//! What is heard in the slots 0 and 16: the multiframe, the ABCD bits, and the alarms of the other end.

use super::buffer::{follow, keep_nibbles};
use super::remote::{remote_frame_after, remote_multiframe_after};
use g704_align::Place;
use g704_cas::{MfAligner, Nibble};

/// The multiframe, the ABCD bits that were heard since their circuits' last turn, and the other end's alarms.
#[derive(Drop)]
pub(super) struct Signalling {
    pub(super) multiframe: MfAligner,
    pub(super) nibbles: [Option<Nibble>; 30],
    pub(super) remote_frame: bool,
    pub(super) remote_multiframe: bool,
}

impl Signalling {
    ghost use Rattle.gw_switch.specs.Trunk.{Hears};

    /// Hears an octet at its place on the trunk, in slot 0 or 16, or nowhere.
    pub(super) fn receive(&mut self, place: Place, octet: u8)
        ensures { Hears self.old self.new place octet }
    {
        let in_multiframe = follow(&mut self.multiframe, place, octet);
        keep_nibbles(&mut self.nibbles, in_multiframe, octet);
        self.remote_frame = remote_frame_after(place, octet, self.remote_frame);
        self.remote_multiframe = remote_multiframe_after(
            place,
            in_multiframe,
            octet,
            self.remote_multiframe,
        );
    }
}
