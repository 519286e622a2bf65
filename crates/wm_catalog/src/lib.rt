//! The tables of a store in the order in which they were made, each found by its name.
#![tactic(auto)]

mod catalog;

pub use catalog::Catalog;
