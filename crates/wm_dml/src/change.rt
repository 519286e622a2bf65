//! A change of a key over a period.
use wm_base::{Key, Kind, Period, Values};

/// What becomes of a key over a period.
#[derive(Drop)]
pub struct RowChange {
    pub key: Key,
    pub period: Period,
    /// The row that stands there from now on, or none where it is gone.
    pub row: Option<Values>,
    pub kind: Kind,
}
