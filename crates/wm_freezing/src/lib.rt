//! Who is kept from a workspace, how it comes to be frozen, and how it is let go.
#![tactic(auto)]

pub mod asked;
pub mod freeze;
pub mod hold;
pub mod unfreeze;
