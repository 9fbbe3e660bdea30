//! A trunk in service: its octets and its clients' commands as records of a session, and answers to both.
#![tactic(auto)]

mod client;
mod clients;
mod connection;
mod device;
mod device_calls;
mod door;
mod held;
mod line;
mod logged_reader;
mod multiframe_dropper;
mod readiness;
mod sink;
mod source;
mod waiting;
mod with_clients;

pub use connection::{read_client, write_client};
pub use device::{DeviceFault, DeviceRead, FromDevice, ToDevice, TrunkInput, TrunkOutput};
pub use door::{Door, open_door};
pub use held::drop_first;
pub use line::TrunkLine;
pub use multiframe_dropper::{MultiframeDropper, give_held};
pub use readiness::Poller;
pub use waiting::Waiting;
pub use with_clients::{WithClients, open_clients};
