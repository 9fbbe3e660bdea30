//! The files of a trunk's log: two pairs of a state and the records behind it, written in turn, of which at
//! every moment one is whole.
#![tactic(auto)]

mod adler;
mod area;
mod file_store;
mod files;
mod head;
mod loading;
mod pair;
mod reading;
mod store;

pub use area::is_blank;
pub use file_store::FileStore;
pub use files::LogFiles;
pub use head::HEAD_LEN;
pub use loading::{KeptContents, Loaded, PairContents, SameTurn, newest};
pub use pair::Pair;
pub use reading::read_area;
pub use store::{Store, StoreFault};
