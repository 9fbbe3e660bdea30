//! The names of codecs, in configurations, listings and command lines.

ghost use Rattle.std.specs.Prelude.{◌≡◌, ◌≤◌, length};
ghost use Rattle.g726_codec.specs.Names.{text_of, codec_named, name_of, kind_of};

use crate::CodecKind;
use e1_g711::Law;

/// The text of [`CodecName::Pcma`].
pub const PCMA: &str = "pcma";

/// The text of [`CodecName::Pcmu`].
pub const PCMU: &str = "pcmu";

/// The text of [`CodecName::G16`].
pub const G726_16: &str = "g726-16";

/// The text of [`CodecName::G24`].
pub const G726_24: &str = "g726-24";

/// The text of [`CodecName::G32`].
pub const G726_32: &str = "g726-32";

/// The text of [`CodecName::G40`].
pub const G726_40: &str = "g726-40";

/// A codec by its name.
///
/// It is ITU-T G.711 in one of its laws, or ITU-T G.726 at one of its rates. RFC 3551, 4.5.4 and 4.5.14, has
/// these names in capitals.
#[derive(Clone, Copy, Debug, PartialEq, Eq)]
pub enum CodecName {
    /// `pcma`, G.711 in A-law.
    Pcma,
    /// `pcmu`, G.711 in mu-law.
    Pcmu,
    /// `g726-16`, G.726 at 16 kbit/s.
    G16,
    /// `g726-24`, G.726 at 24 kbit/s.
    G24,
    /// `g726-32`, G.726 at 32 kbit/s.
    G32,
    /// `g726-40`, G.726 at 40 kbit/s.
    G40,
}

impl CodecName {
    /// The name of a codec on a trunk of this law.
    pub fn of(law: Law, kind: CodecKind) -> CodecName
        ensures { result ≡ name_of law kind }
    {
        match (law, kind) {
            (Law::A, CodecKind::G711) => CodecName::Pcma,
            (Law::Mu, CodecKind::G711) => CodecName::Pcmu,
            (_, CodecKind::G16) => CodecName::G16,
            (_, CodecKind::G24) => CodecName::G24,
            (_, CodecKind::G32) => CodecName::G32,
            (_, CodecKind::G40) => CodecName::G40,
        }
    }

    /// The codec with this name, if there is one.
    pub fn named(text: &str) -> Option<CodecName>
        ensures { result ≡ codec_named text.now }
    {
        match text {
            PCMA => Some(CodecName::Pcma),
            PCMU => Some(CodecName::Pcmu),
            G726_16 => Some(CodecName::G16),
            G726_24 => Some(CodecName::G24),
            G726_32 => Some(CodecName::G32),
            G726_40 => Some(CodecName::G40),
            _ => None,
        }
    }

    /// The text of the name, at most seven letters.
    pub fn text(self) -> &'static str
        ensures text { result.now ≡ text_of self }
        ensures len { length result.now ≤ 7 }
    {
        match self {
            CodecName::Pcma => PCMA,
            CodecName::Pcmu => PCMU,
            CodecName::G16 => G726_16,
            CodecName::G24 => G726_24,
            CodecName::G32 => G726_32,
            CodecName::G40 => G726_40,
        }
    }

    /// The kind of the named codec.
    pub fn kind(self) -> CodecKind
        ensures { result ≡ kind_of self }
    {
        match self {
            CodecName::Pcma | CodecName::Pcmu => CodecKind::G711,
            CodecName::G16 => CodecKind::G16,
            CodecName::G24 => CodecKind::G24,
            CodecName::G32 => CodecKind::G32,
            CodecName::G40 => CodecKind::G40,
        }
    }
}
