//! The history of a table in a workspace: what was written to it there, when each was first written over, and its rows
//! as they stood on a date.
#![tactic(auto)]

pub mod dated;
pub mod later;
pub mod layers;
pub mod view;

pub use dated::dated_showing;
pub use view::history_view;
