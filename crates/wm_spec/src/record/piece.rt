//! The record of what a version holds for a key over a time.
use crate::record::CellRange;
use wm_base::Kind;

/// What a version holds at a range of cells.
#[derive(Drop)]
pub struct PieceRecord {
    pub version: u64,
    pub cells: CellRange,
    /// The stamp of the change that wrote it, and of its row where it is not gone.
    pub stamp: u64,
    pub kind: Kind,
    /// Whether the cells hold no row.
    pub gone: bool,
}
