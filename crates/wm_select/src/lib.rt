//! Queries: the tuples that the conditions keep, in groups, projected, each once, and in order.
#![tactic(auto)]

mod aggregates;
mod answer;
mod counted;
mod fault;
mod group;
mod group_columns;
mod group_key;
mod items;
mod limit;

pub use answer::select;
pub use fault::SelectFault;
