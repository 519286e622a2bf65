//! A finite map from ids to bytes, in the slots of pages.
#![tactic(auto)]

pub mod blob;
mod change;
mod draft;
pub mod heap;
mod ids;
mod load;
mod places;
mod reading;
mod room;
pub mod slot;
pub mod spot;
mod stored;
pub mod walk;
mod writing;

pub use blob::{Blob, Blobs};
pub use heap::Heap;
pub use reading::read_slots;
pub use slot::{Slot, Slots};
pub use spot::{Spot, Spots};
pub use walk::{SlotIter, SlotRef};
pub use writing::write_slots;
