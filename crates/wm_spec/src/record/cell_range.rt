//! The cells that a record speaks of.
use wm_base::Key;

/// The cells of one key of a table over a time: from `from` up to `till`, which is not of it.
#[derive(Drop)]
pub struct CellRange {
    pub table: u16,
    pub key: Key,
    /// In seconds, as an instant has them.
    pub from: u64,
    pub till: u64,
}
