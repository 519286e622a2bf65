//! What a version has of the rows of a table: its pieces laid over one another, the rows and the periods that stand on
//! them.
#![tactic(auto)]

mod descent;
pub mod laying;
pub mod listing;
pub mod overlap;
mod standing;
