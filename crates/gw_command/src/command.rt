//! What the command line asks for, from what clap finds in it (`request_of`).
ghost use Rattle.std.specs.Prelude.{◌≡◌, ℕ, IfSome, IfNone};
ghost use Rattle.gw_command.specs.Command.{AreDescriptors, IsWaitOf, usual_payload};

use crate::options::{G711, matches, no_descriptors};
use crate::request::{
    AlignOptions, ControlOptions, Crc4Options, FilterOptions, PortOptions, ReplayOptions, Request,
    SatopOptions, Senders, ServeOptions, SessionOptions, StreamOptions, TrunkOptions,
};
use clap::error::ErrorKind;
use clap::{ArgMatches, Error};
use e1_g711::Law;
use g726_codec::CodecKind;
use g726_codec::names::{G726_16, G726_24, G726_32, G726_40};
use gw_circuit::payload_types::{FIRST_DYNAMIC, static_type};
use gw_speech::StreamSpec;
use satop_playout::Replacement;
use std::alloc::Global;
use std::rt::Env;
use std::{env, io};

/// The arguments of the command line, the name of the program first.
pub fn arguments<R: Env + AllocGlobal>(rt: &R) -> io::Result<Vec<String>> {
    let arguments = env::args(rt)?.collect(rt.alloc())?;
    Ok(arguments)
}

/// Why the command line is not followed.
#[derive(Clone, Copy, Debug, PartialEq, Eq)]
pub enum RefusalKind {
    /// It asks for help or the version: that is no fault.
    Help,
    /// It is faulty.
    Usage,
    /// Memory was refused.
    OutOfMemory,
}

/// Why the command line is not followed, and what is printed of that.
#[derive(Debug, Drop)]
pub struct Refusal {
    error: Error,
}

impl From<Error> for Refusal {
    fn from(error: Error) -> Refusal {
        Refusal { error }
    }
}

impl Refusal {
    /// Why.
    pub fn kind(&self) -> RefusalKind {
        match self.error.kind() {
            ErrorKind::DisplayHelp | ErrorKind::DisplayVersion => RefusalKind::Help,
            ErrorKind::OutOfMemory => RefusalKind::OutOfMemory,
            _ => RefusalKind::Usage,
        }
    }

    /// Prints help on standard output, or the fault on standard error. A write that fails is passed over.
    pub fn print<R: Print + Eprint>(&self, rt: &R) {
        let _ = self.error.print(rt);
    }
}

// The law `a` or `mu` by its name.
fn law_named(name: &str) -> Option<Law> {
    match name {
        "a" => Some(Law::A),
        "mu" => Some(Law::Mu),
        _ => None,
    }
}

// The codec of this name.
fn codec_named(name: &str) -> Option<CodecKind> {
    match name {
        G711 => Some(CodecKind::G711),
        G726_16 => Some(CodecKind::G16),
        G726_24 => Some(CodecKind::G24),
        G726_32 => Some(CodecKind::G32),
        G726_40 => Some(CodecKind::G40),
        _ => None,
    }
}

// The payload type of speech if none is asked for: that of the law in G.711, else the first dynamic one.
fn usual_payload(law: Law, codec: CodecKind) -> u8
    ensures { result ≡ usual_payload law codec }
{
    match codec {
        CodecKind::G711 => static_type(law),
        _ => FIRST_DYNAMIC,
    }
}

// The stream that the options name.
fn stream_in(found: &ArgMatches<'_>) -> Option<StreamSpec> {
    let law = law_named(found.get_str("law")?)?;
    let codec = codec_named(found.get_str("codec")?)?;
    StreamSpec::new(
        law,
        codec,
        found
            .get_one("payload")
            .unwrap_or(usual_payload(law, codec)),
        found.get_one("ssrc")?,
        found.get_one("sequence")?,
        found.get_one("timestamp")?,
        found.get_one("ptime")?,
    )
}

// The options of `encode` and `decode`.
fn stream_options(found: &ArgMatches<'_>) -> Option<StreamOptions> {
    Some(StreamOptions {
        stream: stream_in(found)?,
        totals: found.get_flag("totals"),
    })
}

// The number of signals, one of which comes every 2 ms, in a wait of this many milliseconds; None unless
// these are 200 to 8,000. A time between two signals counts as that of the later one.
fn signals_of(ms: u16) -> Option<u16>
    ensures wait { IfSome result (IsWaitOf ms) }
    ensures none { IfNone result ((signals : ℕ) → ¬ IsWaitOf ms signals) }
{
    if ms < 200 || ms > 8000 {
        return None;
    }
    Some((ms + 1) / 2)
}

// The wait for the acknowledgement of a seizure in signals, if one is named.
fn seizure_wait_in(found: &ArgMatches<'_>) -> Option<u16> {
    let ms = found.get_one("seizure-wait")?;
    signals_of(ms)
}

// The options that all sessions have.
fn session_options<'a>(found: &ArgMatches<'a>) -> Option<SessionOptions<'a>> {
    Some(SessionOptions {
        config: found.get_str("config")?,
        load: found.get_str("load"),
        save: found.get_str("save"),
        seizure_wait: seizure_wait_in(found),
        totals: found.get_flag("totals"),
    })
}

// The options of `replay`.
fn replay_options<'a>(found: &ArgMatches<'a>) -> Option<ReplayOptions<'a>> {
    Some(ReplayOptions {
        session: session_options(found)?,
        tell: found.get_str("tell"),
    })
}

// The senders of this name.
fn senders_named(name: &str) -> Option<Senders> {
    match name {
        "any" => Some(Senders::Any),
        "host" => Some(Senders::Host),
        "peer" => Some(Senders::Peer),
        "first" => Some(Senders::First),
        _ => None,
    }
}

// How datagrams come and go.
fn port_options(found: &ArgMatches<'_>) -> Option<PortOptions> {
    Some(PortOptions {
        senders: senders_named(found.get_str("senders")?)?,
        repeat: found.get_one("repeat")?,
    })
}

// The options of `serve`.
fn serve_options<'a>(found: &ArgMatches<'a>) -> Option<ServeOptions<'a>> {
    Some(ServeOptions {
        session: session_options(found)?,
        ports: port_options(found)?,
    })
}

// The first and the last descriptor that a text names, as `3-32`: the first is 3 at least.
fn descriptors_in(text: &str) -> Option<(u16, u16)>
    ensures found { IfSome result (λ ends. AreDescriptors text.now ends.0 ends.1) }
    ensures none { IfNone result ((first last : ℕ) → ¬ AreDescriptors text.now first last) }
{
    let (first, last) = text.split_once('-')?;
    let first = first.parse::<u16>().ok()?;
    let last = last.parse::<u16>().ok()?;
    if first < 3 || last < first {
        return None;
    }
    Some((first, last))
}

// The first and the last descriptor of `--sockets`, if it is there. It is refused if it names none.
fn sockets_in(alloc: Global, found: &ArgMatches<'_>) -> Result<Option<(u16, u16)>, Refusal> {
    let Some(text) = found.get_str("sockets") else {
        return Ok(None);
    };
    match descriptors_in(text) {
        Some(ends) => Ok(Some(ends)),
        None => Err(Refusal::from(no_descriptors(alloc, text))),
    }
}

// The clients who give commands, if there are to be some.
fn control_options<'a>(found: &ArgMatches<'a>) -> Option<ControlOptions<'a>> {
    Some(ControlOptions {
        path: found.get_str("control")?,
        end: found.get_one("end"),
    })
}

// What octets pass at the device of a trunk. (`--slots` has no other value than 1-31.)
fn filter_options(found: &ArgMatches<'_>) -> FilterOptions {
    FilterOptions {
        slots: found.get_str("slots").is_some(),
        align: found.get_flag("align"),
        crc4: found.get_flag("crc4"),
        live: found.get_flag("live"),
    }
}

// The options of `trunk`, whose sockets are these.
fn trunk_options<'a>(
    found: &ArgMatches<'a>,
    sockets: Option<(u16, u16)>,
) -> Option<TrunkOptions<'a>> {
    Some(TrunkOptions {
        session: session_options(found)?,
        ports: port_options(found)?,
        sockets,
        log: found.get_str("log"),
        tell: found.get_str("tell"),
        control: control_options(found),
        filters: filter_options(found),
    })
}

// The options of `align`.
fn align_options(found: &ArgMatches<'_>) -> AlignOptions {
    AlignOptions {
        totals: found.get_flag("totals"),
    }
}

// The options of `crc4`.
fn crc4_options<'a>(found: &ArgMatches<'a>) -> Crc4Options<'a> {
    Crc4Options {
        check: found.get_flag("check"),
        live: found.get_flag("live"),
        reports: found.get_str("reports"),
        totals: found.get_flag("totals"),
    }
}

// What replaces lost packets, by its name.
fn fill_named(name: &str) -> Option<Replacement> {
    match name {
        "again" => Some(Replacement::Again),
        "ones" => Some(Replacement::Ones),
        _ => None,
    }
}

// The options of `satop`.
fn satop_options<'a>(found: &ArgMatches<'a>) -> Option<SatopOptions<'a>> {
    Some(SatopOptions {
        local: found.get_str("local")?,
        peer: found.get_str("peer")?,
        from: found.get_str("from"),
        size: found.get_one("size")?,
        jitter: found.get_one("jitter")?,
        rtp: found.get_one("rtp"),
        sequence: found.get_one("sequence"),
        fill: fill_named(found.get_str("fill")?)?,
        own_clock: found.get_str("clock")? == "own",
    })
}

// What a subcommand of this name asks for, whose `--sockets` are these. Each has the options that it needs,
// by the rows that declare them.
fn request_named<'a>(
    name: &str,
    found: &ArgMatches<'a>,
    sockets: Option<(u16, u16)>,
) -> Option<Request<'a>> {
    Some(match name {
        "encode" => Request::Encode(stream_options(found)?),
        "decode" => Request::Decode(stream_options(found)?),
        "replay" => Request::Replay(replay_options(found)?),
        "check" => Request::Check(session_options(found)?),
        "serve" => Request::Serve(serve_options(found)?),
        "trunk" => Request::Trunk(trunk_options(found, sockets)?),
        "align" => Request::Align(align_options(found)),
        "crc4" => Request::Crc4(crc4_options(found)),
        "satop" => Request::Satop(satop_options(found)?),
        _ => return None,
    })
}

/// What the command line asks for; None if it names nothing to do.
///
/// # Errors
///
/// What clap refuses, or a `--sockets` that names no range of descriptors from 3 on.
#[inline(never)]
pub fn request_of<'a>(
    alloc: Global,
    arguments: &'a [String],
) -> Result<Option<Request<'a>>, Refusal> {
    let found = matches(alloc, arguments)?;
    let Some((name, options)) = found.subcommand() else {
        return Ok(None);
    };
    let sockets = sockets_in(alloc, options)?;
    Ok(request_named(name, options, sockets))
}
