//! What a query is refused for by the names and types in it.
#![tactic(auto)]

mod asking;
mod items;
mod lacking_parts;
mod meant;
mod orders;

pub use asking::query_fault;
