//! Decisions on conflicts of a workspace with its parent: what they copy, and what they come to.
#![tactic(auto)]

pub mod decision;
pub mod keep;
pub mod keyed;
pub mod netted;
pub mod viewpoint;

pub use decision::{Copied, Decision, Resolve};
pub use keep::Keep;
pub use netted::Netted;
