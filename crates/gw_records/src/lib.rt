//! Records in octets, read and written by sessions of any kind.
#![tactic(auto)]

pub mod laws;
mod line;
mod log;
mod octets;
mod outcome;
mod ports;
mod reader;
mod records;
mod streams;
mod writing;

pub use line::{AnswerTime, Line, OctetLine};
pub use log::{AtStart, Log};
pub use octets::{codec_of, command_of, octet_of_codec, octet_of_command};
pub use outcome::{NO_TOTALS, RunFault, Totals, answer};
pub use ports::{PortFault, Ports};
pub use reader::{MAX_READS, Reader, read_behind};
pub use records::{
    AcceptedKinds, CODEC, COMMAND, DATAGRAM, FRONT_LEN, FirstRecord, RecordHead, RecordsEnd, TRUNK,
    code_record, datagram_record, first_record, front_of,
};
pub use streams::{FromRead, Sink, SinkFault, Source, SourceFault, ToWrite};
pub use writing::{OutputBuffer, TrunkRecord, flush, put, write_all};
