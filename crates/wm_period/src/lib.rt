//! What stands at each moment for one key: pieces that lie one after another and do not overlap.
#![tactic(auto)]

mod joining;
mod parts;
pub mod piece;
pub mod pieces;

pub use piece::Piece;
pub use pieces::Pieces;
