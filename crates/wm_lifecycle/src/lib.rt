//! Tables, savepoints and workspaces come, change and go: the edits that draw nothing.
#![tactic(auto)]

mod batches;
pub mod births;
pub mod freezes;
pub mod locks;
mod points;
pub mod removals;
pub mod restores;
pub mod saves;
pub mod tables;
