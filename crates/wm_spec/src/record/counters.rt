//! The record of what is counted over the whole store.
/// What is counted over the whole store. There is one such record.
#[derive(Clone, Copy, Debug, PartialEq)]
pub struct Counters {
    /// The stamp that the next row gets.
    pub next_stamp: u64,
    /// The last moment at which a line ran, in seconds as an instant has them.
    pub last_moment: u64,
    /// How many changes the store takes: 1 to 1,048,576.
    pub limit: u32,
    pub next_version: u64,
    /// The work that the lines of the store have counted.
    pub work: u64,
}
