/// The forms of date texts.
#[derive(Clone, Copy, Debug, PartialEq)]
pub enum DateForm {
    /// `YYYY-MM-DD`.
    Date,
    /// `MM-DD-YYYY`.
    MonthFirst,
    /// `YYYY-MM-DD HH:MM:SS`, with a space in the middle.
    Seconds,
    /// `YYYY-MM-DD`, or `YYYY-MM-DD HH:MM:SS` with a space or a `T` in the middle.
    Timestamp,
}
