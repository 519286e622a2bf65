//! Conditions: tests of operands, and what NOT, AND and OR make of them.
//!
//! A tree that is not handed on is let go by `drop`: where a scope ends, the proof takes it apart anew each time.
#![tactic(auto)]

mod conditions;

pub use conditions::{condition, filter};
