//! How an area is read (`read_area`).

ghost use Rattle.std.specs.Prelude.{◌≡◌, IfOk, IfSome, length};
ghost use Rattle.std.specs.Io.KnownBytes.{Consumes};
ghost use Rattle.log_files.specs.Area.{HasAreaOf};

use crate::head::{HEAD_LEN, len_behind};
use std::alloc::Global;
use std::io::{self, Read};

// Reads `len` octets.
fn read_octets<R: Read>(alloc: Global, reader: &mut R, len: usize) -> io::Result<Vec<u8>>
    ensures read { IfOk result (λ octets.
        Consumes (R.remaining reader.old) (R.remaining reader.new) octets.items) }
    ensures len { IfOk result (λ octets. length octets.items ≡ len) }
{
    let mut octets = Vec::new(alloc);
    octets.resize(len, 0)?;
    reader.read_exact(octets.as_mut_slice())?;
    Ok(octets)
}

/// Reads the octets of an area: its head, and what this says is behind it. Nothing more is read.
pub fn read_area<R: Read>(alloc: Global, reader: &mut R) -> io::Result<Vec<u8>>
    ensures { IfOk result (λ octets. IfSome (R.remaining reader.old) (λ content.
        HasAreaOf content octets.items)) }
{
    let mut octets = read_octets(alloc, reader, HEAD_LEN)?;
    let len = len_behind(octets.as_slice());
    let behind = read_octets(alloc, reader, len as usize)?;
    octets.extend_from_slice(behind.as_slice())?;
    Ok(octets)
}
