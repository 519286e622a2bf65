//! What SELECT answers: over the rows of tables, their conflicts, their differences, their histories and the locks on them.
#![tactic(auto)]

mod answer;
mod differences;
mod listing;
mod locks;
mod looking;
mod lost;
pub mod select;
mod sources;
