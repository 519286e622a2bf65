//! What INSERT, UPDATE and DELETE do and answer.
#![tactic(auto)]

pub mod change;
pub mod insert;
mod moving;
mod site;
mod write_all;
mod write_changes;
