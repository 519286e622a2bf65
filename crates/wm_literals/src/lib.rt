//! Literals that are out of range: which symbol of a line is the first.
#![tactic(auto)]

pub mod literals;
pub mod place;

pub use literals::bad_literal;
