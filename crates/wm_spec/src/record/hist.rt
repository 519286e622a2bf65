//! The record of an entry of a log.
use crate::record::CellRange;
use wm_base::{Kind, Name};

/// An entry of a workspace's log.
#[derive(Drop)]
pub struct Hist {
    pub space: u32,
    /// Where it stands in the log, counted from 0.
    pub position: u64,
    pub cells: CellRange,
    /// The stamp of the change, and of its row where it is not gone.
    pub stamp: u64,
    pub kind: Kind,
    /// Whether the cells hold no row from it on.
    pub gone: bool,
    /// When it was written, in seconds as an instant has them.
    pub moment: u64,
    pub user: Name,
}
