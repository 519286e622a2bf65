//! What CREATE TABLE makes and what INSERT writes, and what they are refused for by the statement and the table alone.
#![tactic(auto)]

mod insert;
mod misplaced;
mod names;
mod period;
mod row;
mod shape;
mod table;
mod values;

pub use insert::insert_fault;
pub use names::names_fault;
pub use period::{period_given, value_for_period};
pub use row::{first_lacking, heavy_part, row_fault};
pub use shape::shape_fault;
pub use table::table_of;
pub use values::{row_of, stored};
