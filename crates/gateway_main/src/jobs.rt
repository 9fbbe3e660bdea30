//! What `encode` and `decode` do on standard input and output. They are given no files.

use gw_report::{ProgramFault, print_skipped};
use gw_session::{FromRead, StreamSpec, ToWrite, Totals, decode_stream, encode_stream};
use std::rt::{Stdin, Stdout};

/// Encodes standard input to standard output.
///
/// # Errors
///
/// [`ProgramFault::Session`].
#[inline(never)]
pub(crate) fn encode(
    stream: &StreamSpec,
    input: Stdin,
    output: Stdout,
) -> Result<Totals, ProgramFault> {
    let mut source = FromRead::new(input);
    let mut sink = ToWrite::new(output);
    encode_stream(stream, &mut source, &mut sink).map_err(ProgramFault::Session)
}

/// Decodes standard input to standard output, and prints how many datagrams were skipped.
///
/// # Errors
///
/// [`ProgramFault::Session`].
#[inline(never)]
pub(crate) fn decode(
    rt: &(impl Eprint + AllocGlobal),
    stream: &StreamSpec,
    input: Stdin,
    output: Stdout,
) -> Result<Totals, ProgramFault> {
    let mut source = FromRead::new(input);
    let mut sink = ToWrite::new(output);
    match decode_stream(rt.alloc(), stream, &mut source, &mut sink) {
        Ok(totals) => {
            print_skipped(rt, &totals);
            Ok(totals)
        }
        Err(fault) => Err(ProgramFault::Session(fault)),
    }
}
