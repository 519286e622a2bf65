//! The record of a table.
use crate::record::{KeyColumns, TableColumns};
use wm_base::Name;

/// A table: its name, what it keeps of its rows, and its columns.
#[derive(Drop)]
pub struct Table {
    pub number: u16,
    pub name: Name,
    /// Whether its rows stand in workspaces.
    pub versioned: bool,
    /// Whether its rows have a period of validity.
    pub valid: bool,
    /// Whether its history is kept.
    pub history: bool,
    /// The places of its key columns; none where it has no key.
    pub key_columns: KeyColumns,
    pub columns: TableColumns,
}
