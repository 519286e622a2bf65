//! The moment of a line in the place of each SYSDATE of its statement.
#![tactic(auto)]

mod conditions;
mod expressions;
mod operands;
mod queries;
mod statements;

pub use statements::set_moment;
