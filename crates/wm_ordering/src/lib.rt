//! Values in order, and the rows that a query shows: each once, and in the order that is asked for.
#![tactic(auto)]

pub mod distinct;
mod keyed;
pub mod order;
pub mod order_by;
pub mod shown;
