//! BeginResolve, ResolveConflicts, CommitResolve and RollbackResolve: what they are refused for, what a session decides,
//! and the edits that its decisions come to.
#![tactic(auto)]

pub mod calls;
mod committing;
mod copying;
mod deciding;
mod meaning;
pub mod opening;
mod restorable;
