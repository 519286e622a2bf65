//! Entries that were made before come into a workspace, or into its log alone, and a workspace stands on its parent as
//! that is now: the edits of a refresh and of a merge.
#![tactic(auto)]

mod entered;
pub mod gains;
pub mod rebases;
pub mod replays;
