//! How a client's connection is read and written, without waiting (`read_client`, `write_client`).

ghost use Rattle.std.specs.Prelude.{◌≡◌, ◌≤◌, ◌++◌, ℕ, List, length, take, IfOk, Result};
ghost use Rattle.std.specs.declared.io.ErrorKind.{ErrorKind};
ghost use Rattle.gw_trunk.specs.Device.{octets_read, passed_count};
ghost use Rattle.gw_trunk.specs.System.{SystemRead, SystemWrote};

use gw_records::Log;
use mio::net::UnixStream;
use std::io::{ErrorKind, Read, Write};

/// Reads octets to the front of `room`, and returns how many: 0 only at the end, or if there is no room. They
/// are behind what came before. A read that a signal interrupts is repeated.
#[tactic(auto, unfolding(crate::specs::System::SystemRead, crate::specs::System::SystemWrote))]
pub fn read_client(
    stream: &mut UnixStream,
    came: &mut Log,
    room: &mut [u8],
) -> Result<usize, ErrorKind>
    ensures bound { IfOk result (λ n. n ≤ length room.new) }
    ensures came { came.new.octets ≡ came.old.octets ++ octets_read result room.new }
    ensures read { SystemRead stream.new result }
    ensures kept { (octets : List ℕ) (written : Result ℕ ErrorKind) → SystemWrote stream.old octets written
        → SystemWrote stream.new octets written }
{
    for _turn in 0..u64::MAX {
        match stream.read(room) {
            Ok(n) => {
                came.append(room, n);
                return Ok(n);
            }
            Err(error) if error.kind() == ErrorKind::Interrupted => {}
            Err(error) => return Err(error.kind()),
        }
    }
    Err(ErrorKind::Interrupted)
}

/// Writes octets from the front of `octets`, and returns how many. They are behind what went before.
#[tactic(auto, unfolding(crate::specs::System::SystemRead, crate::specs::System::SystemWrote))]
pub fn write_client(
    stream: &mut UnixStream,
    went: &mut Log,
    octets: &[u8],
) -> Result<usize, ErrorKind>
    ensures bound { IfOk result (λ n. n ≤ length octets.now) }
    ensures went { went.new.octets ≡ went.old.octets ++ take (passed_count result) octets.now }
    ensures written { SystemWrote stream.new octets.now result }
    ensures kept { (read : Result ℕ ErrorKind) → SystemRead stream.old read → SystemRead stream.new read }
{
    match stream.write(octets) {
        Ok(n) => {
            went.append(octets, n);
            Ok(n)
        }
        Err(error) => Err(error.kind()),
    }
}
