//! Reads and writes of a device, which say by a kind how they failed.

ghost use Rattle.std.specs.Prelude.{◌≡◌, ◌≤◌, length, IfOk};
ghost use Rattle.std.specs.Io.KnownBytes.{ReadConsumes, WriteAppends};
ghost use Rattle.gw_trunk.specs.Device.{is_for_later, IsKindOf};

use std::io::{Error, ErrorKind, Read, Write};

// The error number of a DAHDI channel that has an event: ELAST of its dahdi/user.h.
const HAS_EVENT: i32 = 500;

/// Reads octets to the front of `room`, and returns how many: 0 only at the end, or if there is no room.
pub fn read_now<R: Read>(reader: &mut R, room: &mut [u8]) -> Result<usize, ErrorKind>
    ensures bound { IfOk result (λ n. n ≤ length room.new) }
    ensures octets { ReadConsumes (R.remaining reader.old) (R.remaining reader.new) result room.new }
{
    match reader.read(room) {
        Ok(n) => Ok(n),
        Err(error) => Err(kind_of(&error)),
    }
}

/// Writes octets from the front of `octets`, and returns how many.
pub fn write_now<W: Write>(writer: &mut W, octets: &[u8]) -> Result<usize, ErrorKind>
    ensures bound { IfOk result (λ n. n ≤ length octets.now) }
    ensures octets { WriteAppends (W.contents writer.old) (W.contents writer.new) result octets.now }
{
    match writer.write(octets) {
        Ok(n) => Ok(n),
        Err(error) => Err(kind_of(&error)),
    }
}

/// The kind of an error of a device. One that has an event, which somebody else takes, has none or no room
/// now.
pub fn kind_of(error: &Error) -> ErrorKind
    ensures { IsKindOf error.now result }
{
    if error.raw_os_error() == Some(HAS_EVENT) {
        return ErrorKind::WouldBlock;
    }
    error.kind()
}

/// Whether an error says only that a call is to be repeated.
pub fn is_for_later(kind: ErrorKind) -> bool
    ensures { result ≡ is_for_later kind }
{
    matches!(kind, ErrorKind::WouldBlock | ErrorKind::Interrupted)
}
