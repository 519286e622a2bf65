//! The number of a change.
/// The number of a written row: each change of a store takes the next one.
#[derive(Clone, Copy, Debug, PartialEq, Eq, PartialOrd, Ord)]
pub struct Stamp {
    pub number: u64,
}
