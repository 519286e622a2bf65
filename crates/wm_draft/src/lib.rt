//! What the edits of a line make of the records of a store.
#![tactic(auto)]

mod drafting;
pub mod followed;

pub use drafting::draft;
pub use wm_changes::DraftFault;
