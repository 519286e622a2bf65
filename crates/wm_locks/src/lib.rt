//! The locks of an image, in order.
#![tactic(auto)]

pub mod locks;
pub mod makings;
