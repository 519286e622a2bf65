//! The record of the birth of a workspace, or of a rebase.
/// A turn of a workspace: where its parent stood at its birth, or at a rebase.
#[derive(Clone, Copy, Debug, PartialEq)]
pub struct Turn {
    pub space: u32,
    /// 0 for the birth, and r for the rebase that was the r-th.
    pub rebase: u32,
    /// How many entries the log of the parent had.
    pub log_length: u64,
    /// How many rebases the parent had.
    pub rebases: u32,
}
