//! The rows of a table that a condition chooses. Where a condition fixes the key, the rows of one key are read and not those of all.
#![tactic(auto)]

pub mod choosing;
pub mod keyed;
