//! The journal of pages: a change of several pages is kept whole or not at all, through every crash.
#![tactic(auto)]

mod batch;
mod device;
mod format;
mod header;
mod journal;
mod replay;

pub use device::{open_fault, store_fault};
pub use journal::Journal;
