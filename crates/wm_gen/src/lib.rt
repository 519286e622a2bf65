//! Scripts that are drawn from a number, a line at a time.
#![tactic(auto)]

mod draw;
mod drawing;
mod lines;

pub use lines::Lines;
