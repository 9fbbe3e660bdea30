//! ITU-T G.726 at all four rates and ITU-T G.711: kinds of codec (`CodecKind`), encoders and decoders.
#![tactic(auto)]

ghost use Rattle.std.specs.Prelude.{◌≡◌};
ghost use Rattle.g726_codec.specs.Kinds.{bits_of};

mod any;
mod decoder;
mod encoder;
pub mod laws;
pub mod names;
mod state;

pub use any::AnyCodec;
pub use decoder::Decoder;
pub use encoder::Encoder;
pub use names::CodecName;
pub use state::State;

/// The codec of a circuit's speech in RTP.
#[derive(Clone, Copy, Debug, PartialEq, Eq)]
pub enum CodecKind {
    /// ITU-T G.711 at 64 kbit/s, in the law of the trunk.
    G711,
    /// ITU-T G.726 at 16 kbit/s.
    G16,
    /// ITU-T G.726 at 24 kbit/s.
    G24,
    /// ITU-T G.726 at 32 kbit/s.
    G32,
    /// ITU-T G.726 at 40 kbit/s.
    G40,
}

impl CodecKind {
    /// The bits of a word: 8, 2, 3, 4 or 5.
    pub fn bits(self) -> u8
        ensures { result ≡ bits_of self }
    {
        match self {
            CodecKind::G711 => 8,
            CodecKind::G16 => 2,
            CodecKind::G24 => 3,
            CodecKind::G32 => 4,
            CodecKind::G40 => 5,
        }
    }
}
