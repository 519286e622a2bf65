//! The rules over all records of a store: a store whose records break one is damaged, though each record is in
//! order by itself.
#![tactic(auto)]

mod hists;
mod indexes;
mod keeps;
mod locks;
mod pieces;
mod savepoints;
mod spaces;
mod tables;
mod traces;
mod turns;
mod versions;

pub use keeps::keeps_rules;
