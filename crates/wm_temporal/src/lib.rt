//! What valid time needs of periods: a row cut by the period of a session into what stays and what is
//! changed, and what is left of the old periods of a key under its new ones.
#![tactic(auto)]

pub mod splitting;
pub mod uncovering;

pub use splitting::{Parts, split};
pub use uncovering::{push_free, uncovered};
