//! What plans stand on and look up, and how what comes of a plan is written.
#![tactic(auto)]

pub mod ground;
pub mod looks;
pub mod lost;
pub mod outcome;
pub mod places;
