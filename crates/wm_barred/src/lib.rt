//! What a change of cells is refused for since a lock bars it, and what of them it locks.
#![tactic(auto)]

pub mod barring;
mod held;
pub mod parts;
mod stretch;
mod told;
