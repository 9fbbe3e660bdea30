//! The options as declared to `clap` (names, help, defaults, allowed values), and matched by it.

use clap::builder::ValueParser;
use clap::error::ErrorKind;
use clap::{Arg, ArgAction, ArgMatches, Command, Error};
use g726_codec::names::{G726_16, G726_24, G726_32, G726_40};
use std::alloc::{AllocError, Global};

// The version of the program.
const VERSION: &str = "0.1.0";

// The end of each help, with an example.
const ENCODE_HELP: &str = "\
From standard input come octets of speech in G.711, 8000 a second, in the law of
--law. To standard output goes a session record with an RTP datagram for each
packet.

Example: e1gw encode --codec g726-32 < speech.al > speech.rec";

const DECODE_HELP: &str = "\
From standard input come session records with an RTP datagram each, of any
circuits. To standard output go the octets of their speech in G.711, in the law
of --law. A datagram of another payload type, or none of RTP, is passed over; a
line on standard error tells how many were.

decode looks at --law, --codec and --payload; --ssrc, --sequence, --timestamp
and --ptime are accepted and passed over, so that one set of options names a
stream at both ends.

Example: e1gw decode --codec g726-32 < speech.rec > speech.al";

const REPLAY_HELP: &str = "\
From standard input come session records with octets of the trunk, datagrams,
commands and codecs. To standard output go the records of a gateway that answer
them.

Example: e1gw replay --config trunk.toml < session.rec > answers.rec";

const CHECK_HELP: &str = "\
From standard input come session records, as with replay; what answers them is
written nowhere. To standard output goes a line for each circuit, as it stands
after them.

Example: e1gw check --config trunk.toml < session.rec";

const SERVE_HELP: &str = "\
From standard input come session records with octets of the trunk, commands and
codecs. To standard output go the records of a gateway that answer them.
Datagrams come and go over UDP, on the ports of the configuration.

Example: e1gw serve --config trunk.toml < trunk.rec > answers.rec";

const TRUNK_HELP: &str = "\
From standard input come the octets of the trunk, from a device, a socket or a
pipe. To standard output go the octets of a gateway, one for each octet, as soon
as it has come. Datagrams come and go over UDP, on the ports of the
configuration.

Example: e1gw trunk --config trunk.toml < /dev/trunk > /dev/trunk";

const ALIGN_HELP: &str = "\
From standard input comes a trunk of 2048 kbit/s as octets whose bits stand at
any offset. To standard output go the octets of its time slots, one for each
octet. Octets pass as they come until frame alignment is found first, and at the
last offset while it is lost.

Example: e1gw align < bits.raw > trunk.raw";

const CRC4_HELP: &str = "\
From standard input come the octets that a gateway sends, the first octet of a
frame first. To standard output go the same octets with CRC-4 multiframes (ITU-T
G.704) in bit 1 of time slot 0.

With --check the octets are those of any trunk, from any octet on. They go out
as they came. At the end standard error tells how many submultiframes came and
were errored, and how often CRC multiframe alignment was found and lost.

Two processes of a trunk have the same FIFO by --reports: the one with --check
writes to it how many submultiframes were errored, an octet for at most 255 of
them; the other one sends an E bit of 0 for each (G.704, 2.3.3.4).

Example: e1gw crc4 < trunk.raw > crc4.raw";

const SATOP_HELP: &str = "\
From the socket at LOCAL come SAToP packets (RFC 4553) of the far end at PEER,
each a host and a port. To standard output go the octets of the time slots,
ordered, with others in place of lost packets. From standard input come octets,
as many as went; packets of them go to the far end. Counts go to standard error,
at most once a second.

Example: e1gw satop 0.0.0.0:5000 192.0.2.2:5000 < trunk.in > trunk.out";

/// G.711 in the law of `--law`.
pub const G711: &str = "g711";

// What an option is given.
#[derive(Clone, Copy)]
enum Kind {
    // Nothing: it is there or not.
    Flag,
    // Any text.
    Text,
    // Any text, and it has to be given.
    Required,
    // Any text, which has to be given and stands without the option's name.
    Argument,
    // One of these words, which are listed behind the help.
    Listed(&'static [&'static str]),
    // One of these words, which the help names.
    Named(&'static [&'static str]),
    // A number from the first to the second.
    Number(i64, i64),
}

// An option as it is declared.
#[derive(Clone, Copy)]
struct OptionRow {
    name: &'static str,
    // What the help calls its value; none for its name.
    value_names: &'static [&'static str],
    kind: Kind,
    // Its value if it is not given.
    defaults: &'static [&'static str],
    // The options that it is refused without.
    needs: &'static [&'static str],
    help: &'static str,
}

// What a row leaves out.
const OPTION: OptionRow = OptionRow {
    name: "",
    value_names: &[],
    kind: Kind::Text,
    defaults: &[],
    needs: &[],
    help: "",
};

const LAW: OptionRow = OptionRow {
    name: "law",
    kind: Kind::Listed(&["a", "mu"]),
    defaults: &["a"],
    help: "Law of the octets",
    ..OPTION
};

const CODEC: OptionRow = OptionRow {
    name: "codec",
    kind: Kind::Named(&[G711, G726_16, G726_24, G726_32, G726_40]),
    defaults: &[G711],
    help: "Coding of the datagrams [possible values: g711, g726-16,\ng726-24, g726-32, g726-40]",
    ..OPTION
};

const PAYLOAD: OptionRow = OptionRow {
    name: "payload",
    kind: Kind::Number(0, 127),
    help: "RTP payload type, 0 to 127 [default: 8 for g711 in law a,\n0 for g711 in law mu, else 96]",
    ..OPTION
};

const PTIME: OptionRow = OptionRow {
    name: "ptime",
    kind: Kind::Listed(&["10", "20", "30"]),
    defaults: &["20"],
    help: "Milliseconds in a packet",
    ..OPTION
};

const SSRC: OptionRow = OptionRow {
    name: "ssrc",
    kind: Kind::Number(0, 4294967295),
    defaults: &["0"],
    help: "Synchronization source, 0 to 4294967295",
    ..OPTION
};

const SEQUENCE: OptionRow = OptionRow {
    name: "sequence",
    kind: Kind::Number(0, 65535),
    defaults: &["0"],
    help: "Sequence number of the first datagram, 0 to 65535",
    ..OPTION
};

const TIMESTAMP: OptionRow = OptionRow {
    name: "timestamp",
    kind: Kind::Number(0, 4294967295),
    defaults: &["0"],
    help: "Timestamp of the first datagram, 0 to 4294967295",
    ..OPTION
};

const TOTALS: OptionRow = OptionRow {
    name: "totals",
    kind: Kind::Flag,
    help: "Print the totals on standard error at the end",
    ..OPTION
};

const CONFIG: OptionRow = OptionRow {
    name: "config",
    value_names: &["FILE"],
    kind: Kind::Required,
    help: "Configuration of the gateway, in TOML",
    ..OPTION
};

const LOAD: OptionRow = OptionRow {
    name: "load",
    value_names: &["STATE"],
    kind: Kind::Text,
    help: "Begin with the state that an earlier session saved",
    ..OPTION
};

const SAVE: OptionRow = OptionRow {
    name: "save",
    value_names: &["STATE"],
    kind: Kind::Text,
    help: "Save the state at the end, for --load",
    ..OPTION
};

const SENDERS: OptionRow = OptionRow {
    name: "senders",
    kind: Kind::Named(&["any", "host", "peer", "first"]),
    defaults: &["any"],
    help: "Senders let in: any; host or peer, the peer's address (and port);\nfirst, a call's first one",
    ..OPTION
};

const REPEAT: OptionRow = OptionRow {
    name: "repeat",
    kind: Kind::Number(0, 8),
    defaults: &["0"],
    help: "Datagrams of a circuit after which each is sent again, 0 to 8;\n0 for never",
    ..OPTION
};

const SEIZURE_WAIT: OptionRow = OptionRow {
    name: "seizure-wait",
    value_names: &["MS"],
    kind: Kind::Number(200, 8000),
    help: "Milliseconds after which a seizure that is not acknowledged is\nreleased, 200 to 8000 \
     [default: 200, or that of the state]",
    ..OPTION
};

const CONTROL: OptionRow = OptionRow {
    name: "control",
    value_names: &["SOCKET"],
    kind: Kind::Text,
    help: "Unix socket at which clients connect, who give C and K records\nand get R records",
    ..OPTION
};

const END: OptionRow = OptionRow {
    name: "end",
    value_names: &["FD"],
    kind: Kind::Number(0, 65535),
    needs: &["control"],
    help: "With --control: descriptor, 0 to 65535, of a pipe or a socket; when\n\
           it is closed at its other end, or has octets, the trunk ends",
    ..OPTION
};

const SOCKETS: OptionRow = OptionRow {
    name: "sockets",
    value_names: &["FIRST-LAST"],
    kind: Kind::Text,
    help: "Descriptors, as 3-32, of UDP sockets that the program is given: a\n\
           circuit takes the first at its address, and binds none",
    ..OPTION
};

const LOG: OptionRow = OptionRow {
    name: "log",
    value_names: &["FOLDER"],
    kind: Kind::Text,
    help: "Folder of the log, which a program that is started again goes on\nwith",
    ..OPTION
};

const TELL: OptionRow = OptionRow {
    name: "tell",
    value_names: &["SOCKET"],
    kind: Kind::Text,
    help: "Unix socket at which clients are told how the trunk stands and\nwhat changes",
    ..OPTION
};

const ALIGN: OptionRow = OptionRow {
    name: "align",
    kind: Kind::Flag,
    help: "Take octets whose bits stand at any offset, as e1gw align",
    ..OPTION
};

const CRC4: OptionRow = OptionRow {
    name: "crc4",
    kind: Kind::Flag,
    help: "Check what comes as e1gw crc4 --check, and send as e1gw crc4",
    ..OPTION
};

const SLOTS: OptionRow = OptionRow {
    name: "slots",
    value_names: &["SLOTS"],
    kind: Kind::Named(&["1-31"]),
    help: "The device has time slots 1 to 31 alone: 1-31, 31 octets a frame,\nboth ways",
    ..OPTION
};

const CHECK: OptionRow = OptionRow {
    name: "check",
    kind: Kind::Flag,
    help: "Pass octets as they come, and count errored submultiframes",
    ..OPTION
};

const LIVE: OptionRow = OptionRow {
    name: "live",
    kind: Kind::Flag,
    help: "Where CRC-4 multiframes are checked: tell the counts after each\nsecond of the trunk",
    ..OPTION
};

const REPORTS: OptionRow = OptionRow {
    name: "reports",
    value_names: &["FIFO"],
    kind: Kind::Text,
    help: "FIFO through which errored submultiframes are reported to the\nfar end, by E bits",
    ..OPTION
};

const LOCAL: OptionRow = OptionRow {
    name: "local",
    value_names: &["LOCAL:PORT"],
    kind: Kind::Argument,
    help: "Address and port of the socket",
    ..OPTION
};

const PEER: OptionRow = OptionRow {
    name: "peer",
    value_names: &["PEER:PORT"],
    kind: Kind::Argument,
    help: "Address and port of the far end",
    ..OPTION
};

const SIZE: OptionRow = OptionRow {
    name: "size",
    value_names: &["OCTETS"],
    kind: Kind::Number(32, 1280),
    defaults: &["256"],
    help: "Octets in a packet, 32 to 1280, a multiple of 32",
    ..OPTION
};

const JITTER: OptionRow = OptionRow {
    name: "jitter",
    value_names: &["PACKETS"],
    kind: Kind::Number(0, 500),
    defaults: &["4"],
    help: "Packets waited for after one that is due, 0 to 500",
    ..OPTION
};

const RTP: OptionRow = OptionRow {
    name: "rtp",
    value_names: &["TYPE"],
    kind: Kind::Number(0, 127),
    help: "Payload type of an RTP header in each packet, 0 to 127; none\nwithout it",
    ..OPTION
};

const NUMBER: OptionRow = OptionRow {
    name: "sequence",
    value_names: &["NUMBER"],
    kind: Kind::Number(0, 65535),
    help: "Sequence number of the first packet, 0 to 65535; a random one\nwithout it",
    ..OPTION
};

const FROM: OptionRow = OptionRow {
    name: "from",
    value_names: &["HOST:PORT"],
    kind: Kind::Text,
    help: "Where packets come from, if not from PEER",
    ..OPTION
};

const FILL: OptionRow = OptionRow {
    name: "fill",
    kind: Kind::Named(&["again", "ones"]),
    defaults: &["again"],
    help: "What replaces lost packets: again, the octets one multiframe\nbefore; or ones",
    ..OPTION
};

const CLOCK: OptionRow = OptionRow {
    name: "clock",
    kind: Kind::Named(&["packets", "own"]),
    defaults: &["packets"],
    help: "What times the packets: packets, those that come; or own, this\nmachine's clock",
    ..OPTION
};

// A subcommand, and the options that it takes, in the order of its help.
struct Subcommand {
    name: &'static str,
    about: &'static str,
    after_help: &'static str,
    options: &'static [OptionRow],
}

// The options of a stream of speech.
const OF_A_STREAM: &[OptionRow] = &[
    LAW, CODEC, PAYLOAD, PTIME, SSRC, SEQUENCE, TIMESTAMP, TOTALS,
];

// The options of a session from records to records.
const OF_REPLAY: &[OptionRow] = &[CONFIG, LOAD, SAVE, TOTALS, SEIZURE_WAIT, TELL];

// The options of a session whose answers are not written.
const OF_CHECK: &[OptionRow] = &[CONFIG, LOAD, TOTALS, SEIZURE_WAIT];

// The options of a session over UDP.
const OF_SERVE: &[OptionRow] = &[CONFIG, LOAD, SAVE, TOTALS, SENDERS, REPEAT, SEIZURE_WAIT];

// The options of a trunk in service.
const OF_TRUNK: &[OptionRow] = &[
    CONFIG,
    LOAD,
    SAVE,
    TOTALS,
    SENDERS,
    REPEAT,
    SEIZURE_WAIT,
    LOG,
    TELL,
    CONTROL,
    END,
    SOCKETS,
    ALIGN,
    CRC4,
    LIVE,
    SLOTS,
];

// The options of an emulated circuit.
const OF_SATOP: &[OptionRow] = &[LOCAL, PEER, FROM, SIZE, JITTER, RTP, NUMBER, FILL, CLOCK];

const SUBCOMMANDS: [Subcommand; 9] = [
    Subcommand {
        name: "encode",
        about: "Octets of speech to records of RTP datagrams",
        after_help: ENCODE_HELP,
        options: OF_A_STREAM,
    },
    Subcommand {
        name: "decode",
        about: "Records of RTP datagrams to octets of speech",
        after_help: DECODE_HELP,
        options: OF_A_STREAM,
    },
    Subcommand {
        name: "replay",
        about: "Records of a gateway, answered by records",
        after_help: REPLAY_HELP,
        options: OF_REPLAY,
    },
    Subcommand {
        name: "check",
        about: "Records of a gateway, and a line for each circuit",
        after_help: CHECK_HELP,
        options: OF_CHECK,
    },
    Subcommand {
        name: "serve",
        about: "Records of a gateway, datagrams over UDP",
        after_help: SERVE_HELP,
        options: OF_SERVE,
    },
    Subcommand {
        name: "trunk",
        about: "Octets of a trunk, answered by octets, datagrams over UDP",
        after_help: TRUNK_HELP,
        options: OF_TRUNK,
    },
    Subcommand {
        name: "align",
        about: "A trunk at any bit offset to the octets of its time slots",
        after_help: ALIGN_HELP,
        options: &[TOTALS],
    },
    Subcommand {
        name: "crc4",
        about: "A trunk as it is sent to the same with CRC-4 multiframes",
        after_help: CRC4_HELP,
        options: &[CHECK, LIVE, REPORTS, TOTALS],
    },
    Subcommand {
        name: "satop",
        about: "A trunk as SAToP packets over UDP, its octets on the other side",
        after_help: SATOP_HELP,
        options: OF_SATOP,
    },
];

// An argument by itself, or an option behind its name.
fn with_name<'a>(arg: Arg<'a>, row: &OptionRow) -> Arg<'a> {
    match row.kind {
        Kind::Argument => arg,
        _ => arg.long(row.name),
    }
}

// What a value of a kind may be.
fn parser_of(kind: Kind) -> ValueParser<'static> {
    match kind {
        Kind::Flag => ValueParser::Bool,
        Kind::Text | Kind::Required | Kind::Argument => ValueParser::String,
        Kind::Listed(words) | Kind::Named(words) => ValueParser::Names(words),
        Kind::Number(first, last) => ValueParser::Signed(first, last),
    }
}

// What a use of a kind does.
fn action_of(kind: Kind) -> ArgAction {
    match kind {
        Kind::Flag => ArgAction::SetTrue,
        _ => ArgAction::Set,
    }
}

// The option or argument of a row.
fn declared<'a>(alloc: Global, row: &OptionRow) -> Result<Arg<'a>, AllocError> {
    let arg = Arg::new(alloc, row.name)
        .help(row.help)
        .value_names(row.value_names)
        .default_values(row.defaults)
        .action(action_of(row.kind))
        .value_parser(parser_of(row.kind))
        .required(matches!(row.kind, Kind::Required | Kind::Argument))
        .hide_possible_values(matches!(row.kind, Kind::Named(_)));
    with_name(arg, row).requires_all(row.needs)
}

// The options and arguments of rows.
fn all_declared<'a>(alloc: Global, rows: &[OptionRow]) -> Result<Vec<Arg<'a>>, AllocError> {
    let mut args = Vec::new(alloc);
    for row in rows {
        args.push(declared(alloc, row)?)?;
    }
    Ok(args)
}

// A subcommand with its options.
fn with_options<'a>(alloc: Global, asked: &Subcommand) -> Result<Command<'a>, AllocError> {
    let args = all_declared(alloc, asked.options)?;
    Command::new(alloc, asked.name)
        .about(asked.about)
        .after_help(asked.after_help)
        .next_line_help(true)
        .args(args)
}

// The subcommands of rows.
fn subcommands<'a>(
    alloc: Global,
    all_asked: &[Subcommand],
) -> Result<Vec<Command<'a>>, AllocError> {
    let mut commands = Vec::new(alloc);
    for asked in all_asked {
        commands.push(with_options(alloc, asked)?)?;
    }
    Ok(commands)
}

// All subcommands. (This is the one step, since each step beside their table is slow to prove.)
fn all_subcommands<'a>(alloc: Global) -> Result<Vec<Command<'a>>, AllocError> {
    subcommands(alloc, &SUBCOMMANDS)
}

// The command line of the program, with its subcommands.
fn whole<'a>(alloc: Global) -> Result<Command<'a>, AllocError> {
    let commands = all_subcommands(alloc)?;
    Command::new(alloc, "e1gw")
        .about("E1 trunk to RTP gateway, from standard input to standard output")
        .version(VERSION)
        .subcommand_required(true)
        .subcommands(commands)
}

// The error of a `--sockets` with this value.
fn descriptors_wanted(alloc: Global, value: &str) -> Result<Error, AllocError> {
    let words = format!(in alloc; "--sockets {value}: descriptors from 3 on are wanted, as 3-32")?;
    whole(alloc)?.error(ErrorKind::ValueValidation, words.as_str())
}

/// Why a `--sockets` with this value is refused, in clap's form.
pub(crate) fn no_descriptors(alloc: Global, value: &str) -> Error {
    match descriptors_wanted(alloc, value) {
        Ok(error) => error,
        Err(error) => Error::from(error),
    }
}

/// The arguments matched against the declared subcommands and options.
#[inline(never)]
pub(crate) fn matches<'a>(alloc: Global, arguments: &'a [String]) -> Result<ArgMatches<'a>, Error> {
    whole(alloc)?.try_get_matches_from(arguments)
}
