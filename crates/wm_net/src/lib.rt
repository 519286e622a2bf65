//! Net lists, what a list gains, conflicts and last positions: definitions that what a merge does is measured by, and
//! their laws.
#![tactic(auto)]

pub mod laws;
