//! A value without a copy of its text.
/// A value that is looked at where it lies, with no copy of its text. Times are in seconds, and the two ends of a
/// period may stand in any order.
#[derive(Clone, Copy)]
pub enum Seen<'a> {
    Nothing,
    Number(i64),
    Bytes(&'a [u8]),
    Moment(u64),
    Ends(u64, u64),
}
