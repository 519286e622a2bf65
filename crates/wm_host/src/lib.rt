//! The commands of the program. `run` opens a store, cuts the bytes of a source into lines, hands each to
//! the engine and says the answer; `init` makes the store, `check` opens it and leaves it as it is, and `load`
//! runs a script drawn from a number.
#![tactic(auto)]

mod check;
mod command;
mod ended;
mod host;
mod line;
mod load;
mod say;
mod script;
mod stop;
mod store;
mod tally;

pub use command::run;
pub use ended::{Ended, Place};
