//! The parser of a line.
#![tactic(auto)]

pub mod fault;
mod lines;
mod parsing;

pub use fault::ParseFault;
pub use lines::discard;
pub use parsing::parse;
