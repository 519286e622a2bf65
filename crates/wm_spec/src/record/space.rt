//! The record of a workspace.
use wm_base::Name;

/// Who may write in a workspace that is frozen.
#[derive(Clone, Copy, Debug, PartialEq)]
pub enum FreezeMode {
    /// It is not frozen.
    Free,
    /// NO_ACCESS.
    NoAccess,
    /// READ_ONLY.
    ReadOnly,
    /// 1WRITER: the one user that `writer` names.
    OneWriter,
    /// WM_ONLY.
    WmOnly,
}

/// A workspace.
#[derive(Drop)]
pub struct Space {
    pub number: u32,
    pub name: Name,
    /// The number of the workspace that it was made in; 0 in LIVE.
    pub parent: u32,
    /// When it was made, in seconds as an instant has them.
    pub born: u64,
    /// The version of its parent that it was made from.
    pub birth_version: u64,
    /// The place in its parent at which it was made.
    pub birth_place: u32,
    /// The version of its parent that it sees under its own; 0 in LIVE.
    pub base_version: u64,
    /// The position in its parent's log from which on it has not seen it.
    pub from: u64,
    /// How many entries its own log has.
    pub log_length: u64,
    pub rebases: u32,
    pub next_place: u32,
    pub next_implicit: u32,
    pub freeze: FreezeMode,
    /// The one who may write under `OneWriter`; empty otherwise.
    pub writer: Name,
}
