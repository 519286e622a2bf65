//! The record of a savepoint.
use wm_base::Name;

/// A savepoint of a workspace: what stood in it at a place.
#[derive(Drop)]
pub struct Savepoint {
    pub space: u32,
    pub name: Name,
    /// Whether it was made for a workspace that was born there, and not by its own line.
    pub implicit: bool,
    /// Where it stands among the savepoints of its workspace; two of one place hold the same.
    pub place: u32,
    /// Which savepoint of the store it is, in the order of their making.
    pub making: u64,
    /// When its place was made, in seconds as an instant has them.
    pub moment: u64,
    /// The version of its workspace that it keeps.
    pub version: u64,
    /// The version of the parent that the workspace saw under its own; 0 in LIVE.
    pub base_version: u64,
    /// The position in the parent's log from which on the workspace had not seen it.
    pub from: u64,
    /// How many entries the workspace's own log had.
    pub log_length: u64,
    pub rebases: u32,
}
