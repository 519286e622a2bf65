//! What the sources of a query show: their columns, and their rows in order.
#![tactic(auto)]

pub mod columns;
pub mod listing;

pub use columns::{Column, Columns};
pub use listing::{Listing, Listings, RowList};
