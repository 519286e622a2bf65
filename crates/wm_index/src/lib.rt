//! The ids under what records are sought as, the records under their ids, and what is read of them by both.
#![tactic(auto)]

pub mod copies;
pub mod hists;
pub mod index;
pub mod kinds;
pub mod records;
pub mod savepoints;
pub mod spaces;
pub mod tables;
pub mod versions;
