//! What the command line asks for: a subcommand, with its options as values (`Request`).

use gw_speech::StreamSpec;
use satop_playout::Replacement;

/// What the command line asks for: a subcommand, and its options.
#[derive(Clone, Copy, Debug, PartialEq, Eq)]
pub enum Request<'a> {
    /// Octets of speech to records of datagrams.
    Encode(StreamOptions),
    /// Records of datagrams to octets of speech.
    Decode(StreamOptions),
    /// Records from standard input, answered on standard output.
    Replay(ReplayOptions<'a>),
    /// Records from standard input, and a line for each circuit after them. It saves no state.
    Check(SessionOptions<'a>),
    /// Records as in `Replay`, with the datagrams of circuits on sockets.
    Serve(ServeOptions<'a>),
    /// A trunk in service.
    Trunk(TrunkOptions<'a>),
    /// Octets at any bit offset to the octets of the time slots.
    Align(AlignOptions),
    /// Octets that a gateway sends to the same octets with CRC-4 multiframes, or these checked.
    Crc4(Crc4Options<'a>),
    /// A trunk over SAToP.
    Satop(SatopOptions<'a>),
}

impl Request<'_> {
    /// Whether the totals are printed at the end.
    pub fn wants_totals(&self) -> bool {
        match self {
            Request::Encode(options) | Request::Decode(options) => options.totals,
            Request::Replay(options) => options.session.totals,
            Request::Check(options) => options.totals,
            Request::Serve(options) => options.session.totals,
            Request::Trunk(options) => options.session.totals,
            Request::Align(options) => options.totals,
            Request::Crc4(options) => options.totals,
            Request::Satop(_) => false,
        }
    }
}

/// The options of `encode` and `decode`.
#[derive(Clone, Copy, Debug, PartialEq, Eq)]
pub struct StreamOptions {
    /// The stream.
    pub stream: StreamSpec,
    /// Whether the totals are printed at the end.
    pub totals: bool,
}

/// The options that all sessions of a gateway have.
#[derive(Clone, Copy, Debug, PartialEq, Eq)]
pub struct SessionOptions<'a> {
    /// The path of the configuration.
    pub config: &'a str,
    /// The path of the state that the session begins with, if not with a new one.
    pub load: Option<&'a str>,
    /// The path at which the state is saved at the end, if it is.
    pub save: Option<&'a str>,
    /// The wait for the acknowledgement of a seizure, in signals, of which one comes every 2 ms: 100 to
    /// 4,000. Without it that of the state stays.
    pub seizure_wait: Option<u16>,
    /// Whether the totals are printed at the end.
    pub totals: bool,
}

/// The options of `replay`.
#[derive(Clone, Copy, Debug, PartialEq, Eq)]
pub struct ReplayOptions<'a> {
    /// Those of each session.
    pub session: SessionOptions<'a>,
    /// The path of the socket whose clients are told the state of the trunk.
    pub tell: Option<&'a str>,
}

/// Who may send to the circuits.
#[derive(Clone, Copy, Debug, PartialEq, Eq)]
pub enum Senders {
    /// Anybody.
    Any,
    /// The peer's address, at any port.
    Host,
    /// The peer's address and port.
    Peer,
    /// Who was first in the call.
    First,
}

/// How the datagrams of circuits come and go.
#[derive(Clone, Copy, Debug, PartialEq, Eq)]
pub struct PortOptions {
    /// Who may send to the circuits.
    pub senders: Senders,
    /// After how many datagrams of a circuit each is sent again, 1 to 8; 0 for never.
    pub repeat: u8,
}

/// The options of `serve`.
#[derive(Clone, Copy, Debug, PartialEq, Eq)]
pub struct ServeOptions<'a> {
    /// Those of each session.
    pub session: SessionOptions<'a>,
    /// How datagrams come and go.
    pub ports: PortOptions,
}

/// The clients of a trunk, who give it commands.
#[derive(Clone, Copy, Debug, PartialEq, Eq)]
pub struct ControlOptions<'a> {
    /// The path of the socket at which they connect.
    pub path: &'a str,
    /// The descriptor that asks for the end of the trunk, 0 to 65,535, if one does.
    pub end: Option<u16>,
}

/// What stands between the device of a trunk and the gateway.
#[derive(Clone, Copy, Debug, PartialEq, Eq)]
pub struct FilterOptions {
    /// Whether the device has time slots 1 to 31 alone.
    pub slots: bool,
    /// Whether what comes is aligned to its time slots.
    pub align: bool,
    /// Whether CRC-4 multiframes are checked in what comes, and sent in what goes.
    pub crc4: bool,
    /// Whether their counts are printed after each second of the trunk.
    pub live: bool,
}

/// The options of `trunk`.
#[derive(Clone, Copy, Debug, PartialEq, Eq)]
pub struct TrunkOptions<'a> {
    /// Those of each session.
    pub session: SessionOptions<'a>,
    /// How datagrams come and go.
    pub ports: PortOptions,
    /// The first and the last descriptor of the sockets that the program was given, 3 to 65,535, if it was
    /// given some.
    pub sockets: Option<(u16, u16)>,
    /// The folder of the log, if there is to be one.
    pub log: Option<&'a str>,
    /// The path of the socket whose clients are told the state of the trunk.
    pub tell: Option<&'a str>,
    /// The clients who give commands, if there are to be some.
    pub control: Option<ControlOptions<'a>>,
    /// What octets pass at the device.
    pub filters: FilterOptions,
}

/// The options of `align`.
#[derive(Clone, Copy, Debug, PartialEq, Eq)]
pub struct AlignOptions {
    /// Whether the totals are printed at the end.
    pub totals: bool,
}

/// The options of `crc4`.
#[derive(Clone, Copy, Debug, PartialEq, Eq)]
pub struct Crc4Options<'a> {
    /// Whether multiframes are checked, and not sent.
    pub check: bool,
    /// Whether their counts are printed after each second of the trunk.
    pub live: bool,
    /// The path of the FIFO through which errored submultiframes are reported, if there is one.
    pub reports: Option<&'a str>,
    /// Whether the totals are printed at the end.
    pub totals: bool,
}

/// The options of `satop`.
#[derive(Clone, Copy, Debug, PartialEq, Eq)]
pub struct SatopOptions<'a> {
    /// The host and the port of the socket here.
    pub local: &'a str,
    /// The host and the port of the far end.
    pub peer: &'a str,
    /// The host and the port from which it sends, if they are others.
    pub from: Option<&'a str>,
    /// The octets of a packet, 32 to 1,280.
    pub size: u16,
    /// How many later packets are waited for, 0 to 500.
    pub jitter: u16,
    /// The payload type of the RTP header of each packet, 0 to 127, if they have one.
    pub rtp: Option<u8>,
    /// The number of the first packet, 0 to 65,535, if it is not random.
    pub sequence: Option<u16>,
    /// What replaces lost packets.
    pub fill: Replacement,
    /// Whether this machine's clock times the packets, and not those that come.
    pub own_clock: bool,
}
