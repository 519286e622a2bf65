//! The faults of a store.
#![tactic(auto)]

pub mod fault;

pub use fault::{Damage, MakeFault, OpenFault, StoreFault};
