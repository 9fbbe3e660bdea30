//! The trunk saved as octets, and loaded from them.

ghost use Rattle.std.specs.Prelude.{◌≡◌, ◌++◌, ℕ, Bool, List, Option, Some, OnOk, IfSome, All, length};
ghost use Rattle.std.specs.Prelude.{◌<◌, ◌^◌};
ghost use Rattle.saved_octets.specs.Numbers.{two_octets};
ghost use Rattle.g704_align.specs.Saved.{saved_aligner};
ghost use Rattle.gw_switch.specs.declared.trunk.Trunk.{Trunk};
ghost use Rattle.gw_switch.specs.declared.trunk.signalling.Signalling.{Signalling};
ghost use Rattle.gw_switch.specs.Saved.{saved_trunk, saved_signalling, saved_alarms, TrunkFits};
ghost use Rattle.gw_switch.specs.Saved.{saved_slot, saved_nibble, saved_slots, saved_nibbles, IsNibble};

use super::Trunk;
use super::signalling::Signalling;
use g704_align::Aligner;
use g704_cas::{MfAligner, Nibble};
use saved_octets::{OctetReader, append_bool, append_u8, append_u16};
use std::alloc::AllocError;

const SLOTS: usize = 32;

const CIRCUITS: usize = 30;

// The octet of a nibble that is not fresh.
const NO_NIBBLE: u8 = 16;

// The alarms that the other end sends, as they are read.
#[derive(Drop)]
struct RemoteAlarms {
    frame: bool,
    multiframe: bool,
}

impl Trunk {
    /// Appends the octets of the trunk.
    #[tactic(auto, unfolding(crate::specs::Saved::saved_trunk))]
    pub(crate) fn save(&self, out: &mut Vec<u8>) -> Result<(), AllocError>
        ensures octets { OnOk result (out.new.items ≡ out.old.items ++ saved_trunk self.now) }
        ensures fits { OnOk result (TrunkFits self.now) }
    {
        save_aligner(&self.aligner, self.position, out)?;
        save_slots(&self.octets, out)?;
        self.signalling.save(out)
    }

    /// Reads a saved trunk into this one; None if the octets are not those of a trunk.
    pub(crate) fn load(&mut self, octets: &mut OctetReader<'_>) -> Option<()>
        ensures loaded { (other : Trunk) (rest : List ℕ) → TrunkFits other
            → octets.old ≡ saved_trunk other ++ rest
            → (result ≡ Some tt) × (self.new ≡ other) × (octets.new ≡ rest) }
        ensures read { IfSome result (λ done. octets.old ≡ saved_trunk self.new ++ octets.new) }
    {
        self.aligner = Aligner::load(octets)?;
        self.position = octets.read_u16()?;
        load_slots(&mut self.octets, octets)?;
        self.signalling.load(octets)
    }
}

impl Signalling {
    #[tactic(auto, unfolding(crate::specs::Saved::saved_signalling))]
    fn save(&self, out: &mut Vec<u8>) -> Result<(), AllocError>
        ensures octets { OnOk result (out.new.items ≡ out.old.items ++ saved_signalling self.now) }
        ensures fits { OnOk result (All IsNibble self.now.nibbles) }
        ensures len { OnOk result (length self.now.nibbles ≡ 30) }
    {
        self.multiframe.save(out)?;
        save_nibbles(&self.nibbles, out)?;
        save_alarms(self.remote_frame, self.remote_multiframe, out)
    }

    fn load(&mut self, octets: &mut OctetReader<'_>) -> Option<()>
        ensures loaded { (other : Signalling) (rest : List ℕ) → length other.nibbles ≡ 30
            → All IsNibble other.nibbles → octets.old ≡ saved_signalling other ++ rest
            → (result ≡ Some tt) × (self.new ≡ other) × (octets.new ≡ rest) }
        ensures read { IfSome result (λ done. octets.old ≡ saved_signalling self.new ++ octets.new) }
    {
        self.multiframe = MfAligner::load(octets)?;
        load_nibbles(&mut self.nibbles, octets)?;
        let alarms = load_alarms(octets)?;
        self.remote_frame = alarms.frame;
        self.remote_multiframe = alarms.multiframe;
        Some(())
    }
}

fn save_aligner(aligner: &Aligner, position: u16, out: &mut Vec<u8>) -> Result<(), AllocError>
    ensures octets { OnOk result (out.new.items
        ≡ out.old.items ++ (saved_aligner aligner.now ++ two_octets position)) }
    ensures fits { position < 2 ^ 16 }
{
    aligner.save(out)?;
    append_u16(out, position)
}

fn save_slot(slot: Option<u8>, out: &mut Vec<u8>) -> Result<(), AllocError>
    ensures { OnOk result (out.new.items ≡ out.old.items ++ saved_slot slot) }
{
    match slot {
        None => append_u8(out, 0),
        Some(octet) => out.extend_from_slice(&[1, octet]),
    }
}

fn load_slot(octets: &mut OctetReader<'_>) -> Option<Option<u8>>
    ensures loaded { (slot : Option ℕ) (rest : List ℕ) → octets.old ≡ saved_slot slot ++ rest
        → (result ≡ Some slot) × (octets.new ≡ rest) }
    ensures read { IfSome result (λ slot. octets.old ≡ saved_slot slot ++ octets.new) }
{
    match octets.read_u8()? {
        0 => Some(None),
        1 => Some(Some(octets.read_u8()?)),
        _ => None,
    }
}

fn save_nibble(nibble: Option<Nibble>, out: &mut Vec<u8>) -> Result<(), AllocError>
    ensures octets { OnOk result (out.new.items ≡ out.old.items ++ saved_nibble nibble) }
    ensures fits { IsNibble nibble }
{
    match nibble {
        None => append_u8(out, NO_NIBBLE),
        Some(nibble) => append_u8(out, nibble.get()),
    }
}

fn load_nibble(octets: &mut OctetReader<'_>) -> Option<Option<Nibble>>
    ensures loaded { (nibble : Option ℕ) (rest : List ℕ) → IsNibble nibble
        → octets.old ≡ saved_nibble nibble ++ rest → (result ≡ Some nibble) × (octets.new ≡ rest) }
    ensures read { IfSome result (λ nibble. octets.old ≡ saved_nibble nibble ++ octets.new) }
    ensures fits { IfSome result IsNibble }
{
    let number = octets.read_u8()?;
    match Nibble::new(number) {
        Some(nibble) => Some(Some(nibble)),
        None if number == NO_NIBBLE => Some(None),
        None => None,
    }
}

fn save_alarms(frame: bool, multiframe: bool, out: &mut Vec<u8>) -> Result<(), AllocError>
    ensures { OnOk result (out.new.items ≡ out.old.items ++ saved_alarms frame multiframe) }
{
    append_bool(out, frame)?;
    append_bool(out, multiframe)
}

fn load_alarms(octets: &mut OctetReader<'_>) -> Option<RemoteAlarms>
    ensures loaded { (frame multiframe : Bool) (rest : List ℕ)
        → octets.old ≡ saved_alarms frame multiframe ++ rest
        → (result ≡ Some (record { frame = frame; multiframe = multiframe })) × (octets.new ≡ rest) }
    ensures read { IfSome result (λ a. octets.old ≡ saved_alarms a.frame a.multiframe ++ octets.new) }
{
    let frame = octets.read_bool()?;
    let multiframe = octets.read_bool()?;
    Some(RemoteAlarms { frame, multiframe })
}

// The slots of the frame buffer, one after the other.
fn save_slots(slots: &[Option<u8>; 32], out: &mut Vec<u8>) -> Result<(), AllocError>
    ensures octets { OnOk result (out.new.items ≡ out.old.items ++ saved_slots slots.now) }
    ensures len { OnOk result (length slots.now ≡ 32) }
{
    for slot in slots {
        save_slot(*slot, out)?;
    }
    Ok(())
}

fn load_slots(slots: &mut [Option<u8>; 32], octets: &mut OctetReader<'_>) -> Option<()>
    ensures loaded { (saved : List (Option ℕ)) (rest : List ℕ) → length saved ≡ 32
        → octets.old ≡ saved_slots saved ++ rest
        → (result ≡ Some tt) × (slots.new ≡ saved) × (octets.new ≡ rest) }
    ensures read { IfSome result (λ done. octets.old ≡ saved_slots slots.new ++ octets.new) }
{
    for i in 0..SLOTS {
        slots[i] = load_slot(octets)?;
    }
    Some(())
}

fn save_nibbles(nibbles: &[Option<Nibble>; 30], out: &mut Vec<u8>) -> Result<(), AllocError>
    ensures fits { OnOk result (All IsNibble nibbles.now) }
    ensures len { OnOk result (length nibbles.now ≡ 30) }
    ensures octets { OnOk result (out.new.items ≡ out.old.items ++ saved_nibbles nibbles.now) }
{
    for nibble in nibbles {
        save_nibble(*nibble, out)?;
    }
    Ok(())
}

fn load_nibbles(nibbles: &mut [Option<Nibble>; 30], octets: &mut OctetReader<'_>) -> Option<()>
    ensures loaded { (saved : List (Option ℕ)) (rest : List ℕ) → length saved ≡ 30
        → All IsNibble saved → octets.old ≡ saved_nibbles saved ++ rest
        → (result ≡ Some tt) × (nibbles.new ≡ saved) × (octets.new ≡ rest) }
    ensures read { IfSome result (λ done. octets.old ≡ saved_nibbles nibbles.new ++ octets.new) }
{
    for i in 0..CIRCUITS {
        nibbles[i] = load_nibble(octets)?;
    }
    Some(())
}
