//! What `check` lists, and the laws of sessions that go on from a saved state.
#![tactic(auto)]

pub mod laws;
mod listing;
mod sessions;

pub use sessions::check;
