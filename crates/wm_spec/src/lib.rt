//! The definitions that the product is measured by: what a line means, what a script answers, what a run says.
#![tactic(auto)]

pub mod laws;
pub mod record;
