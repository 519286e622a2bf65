//! All records of a store in memory, found by what they are, and changed as a batch changes the store.
#![tactic(auto)]

pub mod children;
pub mod image;
mod indexing;
pub mod load;
mod locks;
mod savepoints;
pub mod shown;

pub use image::Image;
pub use load::ImageFault;
