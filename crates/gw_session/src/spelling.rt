//! A record as octets: kind, circuit, length and body (`append`, `spell`).
ghost use Rattle.std.specs.Prelude.{◌≡◌, ◌+◌, ◌^◌, ◌<◌, ◌≤◌, ◌++◌, length};
ghost use Rattle.gw_records.specs.Records.{IsGood, named, record_of, spelled};
ghost use Rattle.gw_session.specs.Running.{all_kinds};

use arrayvec::ArrayVec;
use gw_records::{
    CODEC, COMMAND, DATAGRAM, RecordHead, TRUNK, TrunkRecord, front_of, octet_of_codec,
    octet_of_command,
};

/// Appends a record of this kind, for which there is room.
pub fn append<const N: usize>(room: &mut ArrayVec<u8, N>, kind: u8, circuit: u8, body: &[u8])
    requires short { length body.now < 2 ^ 16 }
    requires fits { length room.old.items + (4 + length body.now) ≤ N }
    ensures { room.new.items ≡ room.old.items ++ record_of kind circuit body.now }
{
    let _ = room.try_extend_from_slice(&front_of(kind, circuit, body.len()));
    let _ = room.try_extend_from_slice(body);
}

// Fills the room with a record of this kind, circuit and body.
fn fill(room: &mut TrunkRecord, kind: u8, circuit: u8, body: &[u8])
    requires { length body.now < 2 ^ 16 }
    ensures { room.new.items ≡ record_of kind circuit body.now }
{
    room.clear();
    append(room, kind, circuit, body);
}

/// Fills the room with the record of a head and a body.
pub fn spell(room: &mut TrunkRecord, head: RecordHead, body: &[u8])
    requires { IsGood all_kinds (named head body.now) }
    ensures { room.new.items ≡ spelled (named head body.now) }
{
    match head {
        RecordHead::Trunk => fill(room, TRUNK, 0, body),
        RecordHead::Datagram(circuit) => fill(room, DATAGRAM, circuit.get(), body),
        RecordHead::Command(circuit, command) => {
            fill(room, COMMAND, circuit.get(), &[octet_of_command(command)]);
        }
        RecordHead::Codec(circuit, codec, payload_type) => {
            let octets = [octet_of_codec(codec), payload_type];
            fill(room, CODEC, circuit.get(), &octets);
        }
    }
}
