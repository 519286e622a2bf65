//! Records on a station: a store is made, opened, and changed in one commit.
#![tactic(auto)]

mod blobs;
mod changes;
mod fresh;
mod over;
mod records;
mod station_pages;
pub mod store;

pub use store::Store;
