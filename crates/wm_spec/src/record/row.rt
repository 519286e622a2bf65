//! The record of a row's values.
use wm_base::Values;

/// A row of a table, which the pieces name by its stamp.
#[derive(Drop)]
pub struct RowRecord {
    pub stamp: u64,
    pub table: u16,
    pub values: Values,
}
