//! The record of cells that were touched, or settled, at a place of a workspace.
use crate::record::CellRange;

/// Cells of a workspace, the place at which they were touched or settled, and how far a log was then.
#[derive(Drop)]
pub struct Trace {
    pub space: u32,
    /// The greatest place that was given in the workspace when it was made; 0 before the first.
    pub place: u32,
    pub cells: CellRange,
    /// The position of a touch's last entry in the workspace's log; of a mark, one in its parent's. Counted from 0.
    pub position: u64,
}
