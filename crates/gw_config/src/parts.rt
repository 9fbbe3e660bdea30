//! Types for the values read from the top level and from one table, before circuits are built.

ghost use Rattle.std.specs.Prelude.{◌≡◌, ◌≤◌, true, is_some};
ghost use Rattle.toml.specs.View.{items_view};
ghost use Rattle.rtp_pack.specs.PacketTime.{IsPacketTime};
ghost use Rattle.gw_config.specs.Meaning.{tables_of};

use e1_g711::Law;
use g726_codec::CodecName;
use gw_circuit::CircuitConfig;
use q421_line::Role;
use toml::Value;

/// The values of the top level.
#[derive(Clone, Copy)]
pub(crate) struct Top<'a> {
    pub law: Law,
    pub host: &'a str,
    /// The list `circuit`, of tables alone.
    pub tables: &'a [Value],
    ghost are_tables: { is_some (tables_of (items_view tables.now)) ≡ true },
}

/// The circuit of a table, and its codec.
#[derive(Clone, Copy)]
pub(crate) struct Speech {
    /// 1 to 30.
    pub number: u8,
    pub role: Role,
    pub name: CodecName,
    /// At most 127.
    pub payload_type: u8,
    ghost type_fits: { payload_type ≤ 127 },
}

/// The packets and the playout of a circuit.
#[derive(Clone, Copy)]
pub(crate) struct RtpSettings {
    /// 10, 20 or 30 ms.
    pub ptime: u8,
    /// 0 to 1600 samples.
    pub prefill: u16,
    pub ssrc: u32,
    pub sequence: u16,
    pub timestamp: u32,
    ghost ptime_fits: { IsPacketTime ptime },
    ghost prefill_fits: { prefill ≤ 1600 },
}

/// The ports and the peer of a circuit, before the host's text is copied.
#[derive(Clone, Copy)]
pub(crate) struct Ends<'a> {
    pub local_port: u16,
    pub peer_host: &'a str,
    pub peer_port: u16,
}

/// The values of a table.
#[derive(Clone, Copy)]
pub(crate) struct Entry<'a> {
    /// 1 to 30.
    pub number: u8,
    pub settings: CircuitConfig,
    pub ports: Option<Ends<'a>>,
}
