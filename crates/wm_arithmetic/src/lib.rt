//! Expressions: operands with signs, and their products, sums and differences.
//!
//! A tree that is not handed on is let go by `drop`: where a scope ends, the proof takes it apart anew each time.
#![tactic(auto)]

mod expressions;

pub use expressions::expr;
