//! A version of the store.
/// A version of the store: a state of one space. Numbers begin at 1.
#[derive(Clone, Copy, Debug, PartialEq, Eq)]
pub struct Version {
    pub number: u64,
    pub space: u32,
    /// The version under which it stands, 0 where there is none.
    pub parent: u64,
}
