//! The record of a lock.
use crate::record::CellRange;
use wm_base::Name;

/// Whom a lock keeps from cells.
#[derive(Clone, Copy, Debug, PartialEq)]
pub enum LockMode {
    /// E: other users in its workspace, and everybody in the parent of that.
    Exclusive,
    /// S: everybody in the parent of its workspace.
    Shared,
    /// WE: other users in its workspace.
    WorkspaceExclusive,
    /// VE: other users in every workspace.
    VersionExclusive,
}

/// A lock on cells of a workspace.
#[derive(Drop)]
pub struct Lock {
    pub space: u32,
    /// The greatest place that was given in the workspace when it was made; 0 before the first.
    pub place: u32,
    pub cells: CellRange,
    pub mode: LockMode,
    pub user: Name,
    /// Which lock of the store it is, in the order of their making.
    pub making: u64,
}
