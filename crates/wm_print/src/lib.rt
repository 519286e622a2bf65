//! The bytes of answers: rows and their count, what was done, and the text of each refusal.
#![tactic(auto)]

mod answer;
mod cells;
mod forms;
mod limits;
mod refusal;
mod spaces;
mod value;
mod words;

pub use answer::{print_done, print_refusal, print_rows};
