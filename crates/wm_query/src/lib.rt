//! The query of a line: what it shows, its sources, and their groups and order.
//!
//! A tree that is not handed on is let go by `drop`: where a scope ends, the proof takes it apart anew each time.
#![tactic(auto)]

mod queries;

pub use queries::query;
