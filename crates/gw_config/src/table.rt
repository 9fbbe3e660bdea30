//! Whether one table of the list `circuit` is valid, and its values (`entry_of`).

ghost use Rattle.std.specs.Prelude.{◌≡◌, ◌≤◌, ◌||◌, ◌==◌, IsTrue, IfOk, Some, None, codes, option_map, Ok};
ghost use Rattle.toml.specs.Data.{as_integer};
ghost use Rattle.toml.specs.View.{table_view};
ghost use Rattle.rtp_pack.specs.PacketTime.{IsPacketTime};
ghost use Rattle.gw_config.specs.Keys.{read_as, value_at};
ghost use Rattle.gw_config.specs.Names.{payload_of, ptime_of, fixed_type};
ghost use Rattle.gw_config.specs.Meaning.{speech_of, rtp_settings_of, port_at, ports_at, settings, entry_of};
ghost use Rattle.gw_config.specs.Settings.{settings_view};
ghost use Rattle.gw_config.specs.Views.{speech_view, stream_view, ports_view, entry_view};

use crate::fault::FaultKind;
use crate::keys::{choice_at, has_only, integer_at, look_up, whole_at, words_at};
use crate::names::{
    DEFAULT_PTIME, DEFAULT_ROLE, LOOPBACK, fixed_type, goes_with, payload_of, ptime_of,
};
use crate::parts::{Ends, Entry, RtpSettings, Speech};
use e1_g711::Law;
use g726_codec::{CodecKind, CodecName};
use gw_circuit::CircuitConfig;
use q421_line::Role;
use toml::Table;

const CIRCUIT_KEYS: [&str; 12] = [
    "number",
    "role",
    "codec",
    "payload",
    "ptime",
    "prefill",
    "ssrc",
    "sequence",
    "timestamp",
    "local_port",
    "peer_port",
    "peer_host",
];

// The greatest `prefill` in samples, that of a circuit's playout.
const MAX_PREFILL: u32 = 1600;

// The payload type of a codec: that of the table, or the codec's own.
#[tactic(auto, unfolding(crate::specs::Keys::value_at))]
fn payload_at(name: CodecName, table: &Table) -> Result<u8, FaultKind>
    ensures value { result
        ≡ value_at as_integer (payload_of name) (fixed_type name) (codes "payload") (table_view table.now) }
    ensures bound { IfOk result (λ n. n ≤ 127) }
{
    match integer_at(table, "payload")? {
        None => fixed_type(name).ok_or(FaultKind::Missing),
        Some(number) => payload_of(name, number).ok_or(FaultKind::OutOfRange),
    }
}

#[tactic(auto, unfolding(crate::specs::Keys::value_at))]
fn ptime_at(table: &Table) -> Result<u8, FaultKind>
    ensures value { result ≡ value_at as_integer ptime_of (Some 20) (codes "ptime") (table_view table.now) }
    ensures bound { IfOk result (λ n. IsPacketTime n) }
{
    match integer_at(table, "ptime")? {
        None => Ok(DEFAULT_PTIME),
        Some(number) => ptime_of(number).ok_or(FaultKind::OutOfRange),
    }
}

#[tactic(auto, unfolding(crate::specs::Meaning::speech_of))]
fn speech_of(law: Law, table: &Table) -> Result<Speech, FaultKind>
    ensures { read_as speech_view result ≡ speech_of law (table_view table.now) }
{
    let number = whole_at(table, "number", 1, 30, None)? as u8;
    let role = choice_at(table, "role", Some(DEFAULT_ROLE))?;
    let name = choice_at(table, "codec", Some(CodecName::of(law, CodecKind::G711)))?;
    let payload_type = payload_at(name, table)?;
    Ok(Speech {
        number,
        role,
        name,
        payload_type,
    })
}

// The SSRC of a circuit is its number by default; other numbers begin at 0.
#[tactic(auto, unfolding(crate::specs::Meaning::rtp_settings_of))]
fn rtp_settings_of(number: u8, table: &Table) -> Result<RtpSettings, FaultKind>
    ensures { read_as stream_view result ≡ rtp_settings_of number (table_view table.now) }
{
    let ptime = ptime_at(table)?;
    let prefill = whole_at(table, "prefill", 0, MAX_PREFILL, Some(0))? as u16;
    let ssrc = whole_at(table, "ssrc", 0, u32::MAX, Some(u32::from(number)))?;
    let sequence = whole_at(table, "sequence", 0, 65535, Some(0))? as u16;
    let timestamp = whole_at(table, "timestamp", 0, u32::MAX, Some(0))?;
    Ok(RtpSettings {
        ptime,
        prefill,
        ssrc,
        sequence,
        timestamp,
    })
}

// The port at a key. It may be missing only if the other one is, whatever that one's type.
#[tactic(auto, unfolding(crate::specs::Keys::value_at))]
fn port_at(table: &Table, key: &str, other: &str) -> Result<Option<u16>, FaultKind>
    ensures { result ≡ port_at key.now other.now (table_view table.now) }
{
    match integer_at(table, key)? {
        None => {
            if look_up(table, other).is_some() {
                return Err(FaultKind::Missing);
            }
            Ok(None)
        }
        Some(number) => {
            if number < 1 || number > 65535 {
                return Err(FaultKind::OutOfRange);
            }
            Ok(Some(number as u16))
        }
    }
}

// Both ports and the host, or none; `peer_host` is checked without ports too.
#[tactic(auto, unfolding(crate::specs::Meaning::ports_at))]
fn ports_at<'a>(table: &'a Table) -> Result<Option<Ends<'a>>, FaultKind>
    ensures { read_as ports_view result ≡ ports_at (table_view table.now) }
{
    let here = port_at(table, "local_port", "peer_port")?;
    let there = port_at(table, "peer_port", "local_port")?;
    let peer_host = words_at(table, "peer_host", LOOPBACK)?;
    match (here, there) {
        (Some(local_port), Some(peer_port)) => Ok(Some(Ends {
            local_port,
            peer_host,
            peer_port,
        })),
        _ => Ok(None),
    }
}

// A circuit's settings, from values that were already checked.
fn settings(speech: &Speech, stream: &RtpSettings) -> CircuitConfig
    ensures { settings_view result ≡ settings (speech_view speech.now) (stream_view stream.now) }
{
    CircuitConfig::new(
        speech.role,
        speech.name.kind(),
        speech.payload_type,
        stream.ptime,
        stream.prefill,
        stream.ssrc,
        stream.sequence,
        stream.timestamp,
    )
    .unwrap()
}

// The values of a table, or its first fault: unknown keys, then the keys in order, then the law.
#[tactic(auto, unfolding(crate::specs::Meaning::entry_of))]
pub(crate) fn entry_of<'a>(law: Law, table: &'a Table) -> Result<Entry<'a>, FaultKind>
    ensures { read_as entry_view result ≡ entry_of law (table_view table.now) }
{
    if !has_only(table, &CIRCUIT_KEYS) {
        return Err(FaultKind::UnknownKey);
    }
    let speech = speech_of(law, table)?;
    let stream = rtp_settings_of(speech.number, table)?;
    let ports = ports_at(table)?;
    if !goes_with(law, speech.name) {
        return Err(FaultKind::LawCodec);
    }
    Ok(Entry {
        number: speech.number,
        settings: settings(&speech, &stream),
        ports,
    })
}
