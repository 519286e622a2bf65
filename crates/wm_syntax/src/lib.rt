//! The trees of the lines.
#![tactic(auto)]

pub mod aggregates;
pub mod column;
pub mod cond;
pub mod constant;
pub mod expr;
pub mod line;
pub mod operand;
pub mod query;
pub mod statement;
