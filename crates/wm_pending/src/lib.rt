//! What a workspace has of its own, what it gains of its parent, and where both changed, of the records of an image.
#![tactic(auto)]

pub mod clash;
pub mod entries;
mod erasing;
mod front;
pub mod gained;
pub mod keys;
pub mod net;
pub mod own;
pub mod path;
mod settled;
pub mod sides;
mod touched;
pub mod walk;

pub use crate::own::OwnKey;
pub use crate::sides::SideStamps;
