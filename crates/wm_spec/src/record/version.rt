//! The record of a version.
/// A version of a workspace.
#[derive(Clone, Copy, Debug, PartialEq)]
pub struct Version {
    pub number: u64,
    pub space: u32,
    /// The version that it stands on; 0 for none.
    pub parent: u64,
}
