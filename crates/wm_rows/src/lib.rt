//! What each version of a store holds. A version stores the pieces that were written in it, and what it
//! holds at a cell is the nearest piece on its path, so that versions share what stands below them.
#![tactic(auto)]

mod counted;
mod counts;
pub mod keys;
pub mod laws;
mod layer;
mod layers;
pub mod own;
pub mod row_key;
mod row_order;
pub mod rows;

pub use keys::Keys;
pub use own::{OwnPiece, OwnPieces};
pub use row_key::RowKey;
pub use rows::Rows;
