//! Which octet stands for a command or a codec in a record, and back.
ghost use Rattle.std.specs.Prelude.{◌≡◌, ◌≤◌, SomeIff};
ghost use Rattle.gw_records.specs.Octets.{command_of, octet_of_command, codec_of, octet_of_codec};

use g726_codec::CodecKind;
use q421_line::Cmd;

/// The command of an octet; `None` if it is not 1 to 6.
pub fn command_of(octet: u8) -> Option<Cmd>
    ensures { SomeIff result ((1 ≤ octet) × (octet ≤ 6)) (command_of octet) }
{
    match octet {
        1 => Some(Cmd::Seize),
        2 => Some(Cmd::Clear),
        3 => Some(Cmd::Answer),
        4 => Some(Cmd::ClearBack),
        5 => Some(Cmd::Block),
        6 => Some(Cmd::Unblock),
        _ => None,
    }
}

/// The octet of a command.
pub fn octet_of_command(command: Cmd) -> u8
    ensures { result ≡ octet_of_command command }
{
    match command {
        Cmd::Seize => 1,
        Cmd::Clear => 2,
        Cmd::Answer => 3,
        Cmd::ClearBack => 4,
        Cmd::Block => 5,
        Cmd::Unblock => 6,
    }
}

/// The codec of an octet; `None` if it is not 1 to 5.
pub fn codec_of(octet: u8) -> Option<CodecKind>
    ensures { SomeIff result ((1 ≤ octet) × (octet ≤ 5)) (codec_of octet) }
{
    match octet {
        1 => Some(CodecKind::G711),
        2 => Some(CodecKind::G16),
        3 => Some(CodecKind::G24),
        4 => Some(CodecKind::G32),
        5 => Some(CodecKind::G40),
        _ => None,
    }
}

/// The octet of a codec.
pub fn octet_of_codec(codec: CodecKind) -> u8
    ensures { result ≡ octet_of_codec codec }
{
    match codec {
        CodecKind::G711 => 1,
        CodecKind::G16 => 2,
        CodecKind::G24 => 3,
        CodecKind::G32 => 4,
        CodecKind::G40 => 5,
    }
}
