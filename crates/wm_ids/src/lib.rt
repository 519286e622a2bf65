//! Ids in ascending order, under what they are sought by: keys, tables and keys, positions and stamps; and those of
//! pieces under tables and keys, version by version.
#![tactic(auto)]

pub mod id_list;
pub mod ids;
pub mod keyed;
pub mod rows;
pub mod sets;
pub mod versioned;
