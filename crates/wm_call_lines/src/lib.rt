//! The calls of a line: a procedure of the package, and what is given for its parameters.
//!
//! A condition that is not handed on is let go by `drop`: where a scope ends, the proof takes it apart anew each time.
#![tactic(auto)]

mod calls;
mod parameters;

pub use calls::call;
