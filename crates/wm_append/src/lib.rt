//! Entries come into a workspace, and what new pieces and touches leave of others.
#![tactic(auto)]

pub mod append;
pub mod redraw;
