//! Whom freezes bar, and whom locks bar.
#![tactic(auto)]

pub mod access;
pub mod barring;
