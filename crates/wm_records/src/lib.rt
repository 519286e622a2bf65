//! Records under their ids, with what is known of them: an index, the hops of versions and a catalog of tables.
#![tactic(auto)]

pub mod hops;
pub mod records;
pub mod tables;
