//! RefreshWorkspace and MergeWorkspace: what they are refused for, and the edits that they make.
#![tactic(auto)]

pub mod calls;
mod conflict;
mod leaving;
mod locks;
mod merging;
mod ready;
mod refreshing;
