//! What is shown of the conflicts of a workspace with its parent in a table.
#![tactic(auto)]

pub mod shown;

pub use crate::shown::conflict_view;
