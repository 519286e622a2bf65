//! Rows are locked and unlocked, and sessions come to lock what they change.
#![tactic(auto)]

pub mod asked;
pub mod lock_rows;
pub mod setting;
pub mod unlock_rows;
