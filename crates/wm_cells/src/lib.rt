//! The records of a store by their kinds and by their numbers, whether records differ or overlap, and the rules of
//! rows, cells and counts: what the rules over all records are asked with.
#![tactic(auto)]

pub mod cells;
mod columns;
pub mod counters;
pub mod counts;
pub mod distinct;
pub mod index;
pub mod kinds;
pub mod names;
pub mod overlaps;
pub mod rows;
mod weights;
