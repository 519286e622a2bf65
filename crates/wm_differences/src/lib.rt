//! The differences of two points of a table.
#![tactic(auto)]

pub mod points;
pub mod shown;
