//! Speech as records of datagrams, and back.
#![tactic(auto)]

mod coding;
mod decode;
mod encode;
mod stream_spec;

pub use decode::decode_stream;
pub use encode::encode_stream;
pub use stream_spec::StreamSpec;
