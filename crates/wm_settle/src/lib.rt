//! Conflicts of a workspace are settled: marks say up to which change of the parent cells are in conflict no more.
#![tactic(auto)]

mod left;
pub mod settles;
