//! The words of the command line: a command, and each of its options once.
#![tactic(auto)]

mod command;
mod parse;

pub use command::Command;
pub use parse::command_of;
